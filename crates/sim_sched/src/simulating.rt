//! The whole run of a script.
ghost use Rattle.std.specs.Prelude.{◌≡◌, ℕ, false, [], map, length, IfOk};
ghost use Rattle.rand_chacha.specs.ChaCha.{of_seed};
ghost use Rattle.sim_sched.specs.Seats.{seen, receive, AllOpen};
ghost use Rattle.sim_sched.specs.Simulating.{IsReady};
ghost use Rattle.sim_sched.specs.Playing.{Played};
ghost use Rattle.sim_sched.specs.Putting.{AreDistinct};
ghost use Rattle.sim_sched.specs.Whole.{IsRunBy, IsLawfulBy, seed_bytes, AreFresh, AreMadeWith, empty_seat, seat_trace};

use crate::playing::play;
use crate::putting::deliver_requests;
use crate::seats::Seat;
use bft_verify::Keyring;
use copy_reader::Reader;
use fab_base::{Members, NoMemory, ReplicaId, Rows};
use fault_script::{Script, TimeoutLine};
use rand_chacha::ChaCha8Rng;
use rand_core::SeedableRng;
use run_words::{Moments, Party, Pending, Trace, Traces, Transcript};
use std::alloc::Global;

/// The bytes of the generator's key.
fn seed_of(seed: u64) -> [u8; 32]
    ensures { result ≡ seed_bytes seed }
{
    let mut bytes = [0; 32];
    bytes[..8].copy_from_slice(&seed.to_be_bytes());
    bytes
}

/// A seat for each party.
fn seat_all<P: Party>(alloc: Global, parties: Vec<P>) -> Result<Vec<Seat<P>>, NoMemory>
    ensures { IfOk result (λ seats. map (seen P.made P.journal P.shut) seats.items
        ≡ map (empty_seat P.made P.journal P.shut) parties.items) }
{
    let mut seats = Vec::new(alloc);
    for party in parties {
        seats.push(Seat {
            party,
            way: Vec::new(alloc),
            refused: Rows::new(alloc),
        })?;
    }
    Ok(seats)
}

/// The trace of each seat, where all are of open parties.
fn collect<P: Party>(alloc: Global, seats: Vec<Seat<P>>) -> Result<Traces, NoMemory>
    ensures { IfOk result (λ traces. AllOpen (map (seen P.made P.journal P.shut) seats.items)
        → traces ≡ map seat_trace (map (seen P.made P.journal P.shut) seats.items)) }
{
    let mut traces = Rows::new(alloc);
    for seat in seats {
        let trace = seat.into_trace()?;
        traces.push(trace)?;
    }
    Ok(traces)
}

impl<P: Party> Seat<P> {
    /// What the replica leaves behind, with what it refused, where the party is open.
    fn into_trace(self) -> Result<Trace, NoMemory>
        ensures { IfOk result (λ trace. P.shut self.party ≡ false → trace ≡ seat_trace (seen P.made P.journal P.shut self)) }
    {
        let Seat {
            party,
            way: _way,
            refused,
        } = self;
        let left = party.trace()?;
        Ok(Trace { refused, ..left })
    }
}

/// The run at seats that stand ready: the requests come, and then it is played; it uses up timeouts and patience, and its quiet moments are
/// added to those that are given. Whether it was cut off.
fn run_seats<P: Party>(
    seats: &mut [Seat<P>],
    ids: &[ReplicaId],
    requests: Vec<(ReplicaId, Pending)>,
    reader: &Reader,
    turns: u64,
    seed: u64,
    lines: &mut Vec<TimeoutLine>,
    patience: &mut u32,
    moments: &mut Moments,
) -> Result<bool, NoMemory>
    requires ready { IsReady reader.now.members.now reader.now.ring.now ids.now (map (seen P.made P.journal P.shut) seats.old) }
    requires apart { AreDistinct ids.now }
    ensures open { IfOk result (λ spent. AllOpen (map (seen P.made P.journal P.shut) seats.new)) }
    ensures played { IfOk result (λ spent. Played turns (map (receive requests.items)
        (map (seen P.made P.journal P.shut) seats.old)) (of_seed (seed_bytes seed)) lines.old.items patience.old moments.old spent
        (map (seen P.made P.journal P.shut) seats.new) patience.new moments.new) }
{
    deliver_requests(seats, ids, requests)?;
    let mut generator = ChaCha8Rng::from_seed(seed_of(seed));
    play(
        seats,
        ids,
        reader,
        turns,
        &mut generator,
        lines,
        patience,
        moments,
    )
}

/// Runs a script. The answer is the transcript of the one run that its rules fix, and whether the run was cut off because the journals
/// together had the script's `turns` entries; want of memory, of this call or of a party, is the one other answer. The rules have the
/// script's timeouts, each given to the party with its replica's id, and the script's patience; a timeout of a replica that isn't there comes
/// to nothing.
///
/// `ids` are those of the parties, in the order of replicas; all are apart, each party was made with these members and this ring, has no
/// entry yet and is open. `requests` are the signed requests of the script as copies on their way, each with its receiver, in the order
/// in which they are put. The seed of the script's generator and the limit of entries are the script's. Step t takes word t of stream 0
/// of ChaCha8, of which the key is the seed as eight bytes, the greatest first, and 24 zeros, modulo the number of steps.
pub fn simulate<P: Party>(
    alloc: Global,
    script: Script,
    ids: &[ReplicaId],
    parties: Vec<P>,
    requests: Vec<(ReplicaId, Pending)>,
    members: &Members,
    ring: &Keyring,
) -> Result<(Transcript, bool), NoMemory>
    requires named { ids.now ≡ map (λ p. (P.made p).id) parties.items }
    requires apart { AreDistinct ids.now }
    requires fresh { AreFresh P.journal P.shut parties.items }
    requires made { AreMadeWith P.made members.now ring.now parties.items }
    ensures schedule { IfOk result (λ told. IsRunBy script (map P.made parties.items) requests.items told.0 told.1) }
    ensures lawful { IfOk result (λ told. IsLawfulBy script (map P.made parties.items) requests.items told.0 told.1) }
{
    let mut seats = seat_all(alloc, parties)?;
    let reader = Reader {
        alloc,
        members,
        ring,
    };
    let turns = u64::from(script.turns);
    let mut lines = script.timeouts.as_slice().to_vec(alloc)?;
    let mut patience = script.patience;
    let mut moments = Rows::new(alloc);
    let spent = run_seats(
        &mut seats,
        ids,
        requests,
        &reader,
        turns,
        script.seed,
        &mut lines,
        &mut patience,
        &mut moments,
    )?;
    let traces = collect(alloc, seats)?;
    let transcript = Transcript {
        script,
        traces,
        moments,
        timeouts_left: patience,
    };
    Ok((transcript, spent))
}
