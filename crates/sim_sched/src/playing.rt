//! The rules of a run.
ghost use Rattle.std.specs.Prelude.{◌≡◌, ℕ, ◌+◌, ◌<◌, ◌≤◌, Bool, true, false, map, length, IfOk};
ghost use Rattle.sim_sched.specs.Seats.{seen, copies, numbers_of, AllOpen};
ghost use Rattle.sim_sched.specs.Putting.{AreDistinct};
ghost use Rattle.sim_sched.specs.Simulating.{IsReady};
ghost use Rattle.sim_sched.specs.Playing.{Comes, GoesOn, Turned, Rounded, Quieted, Played};
ghost use Rattle.sim_sched.specs.declared.rounds.Progress as progress;

use crate::lines::walk_lines;
use crate::rounds::{Progress, Round};
use crate::seats::Seat;
use crate::stepping::{give_at, pick};
use copy_reader::Reader;
use fab_base::{NoMemory, ReplicaId, Rows};
use fault_script::TimeoutLine;
use rand_chacha::ChaCha8Rng;
use run_words::{Counts, Moment, Moments, Mover, Party};
use std::alloc::Global;

/// How many entries each journal has.
fn count_entries<P: Party>(alloc: Global, seats: &[Seat<P>]) -> Result<Counts, NoMemory>
    ensures { IfOk result (λ counts. counts ≡ numbers_of (map (seen P.made P.journal P.shut) seats.now)) }
{
    let mut counts = Rows::new(alloc);
    for seat in seats {
        counts.push(seat.party.entries())?;
    }
    Ok(counts)
}

/// Gives an event to every replica, by id.
fn give_all<P: Party>(
    seats: &mut [Seat<P>],
    ids: &[ReplicaId],
    reader: &Reader,
    mover: Mover,
    turns: u64,
    before: u64,
) -> Result<Round, NoMemory>
    requires ready { IsReady reader.now.members.now reader.now.ring.now ids.now (map (seen P.made P.journal P.shut) seats.old) }
    requires apart { AreDistinct ids.now }
    requires within { before ≤ turns }
    ensures ready { IfOk result (λ told. IsReady reader.now.members.now reader.now.ring.now ids.now
        (map (seen P.made P.journal P.shut) seats.new)) }
    ensures within { IfOk result (λ told. (before ≤ told.entries) × (told.entries ≤ turns)) }
    ensures more { IfOk result (λ told. told.moved ≡ true → before < told.entries) }
    ensures rounded { IfOk result (λ told. Rounded mover (map (seen P.made P.journal P.shut) seats.old) before turns told
        (map (seen P.made P.journal P.shut) seats.new)) }
{
    let mut moved = false;
    let mut entries = before;
    for place in 0..seats.len() {
        if entries >= turns {
            return Ok(Round {
                spent: true,
                moved,
                entries,
            });
        }
        if give_at(seats, ids, reader.alloc, place, mover)? {
            moved = true;
            entries += 1;
        }
    }
    Ok(Round {
        spent: false,
        moved,
        entries,
    })
}

/// A quiet moment, which is noted: every replica is nudged; where that moves none, and some patience is left, one unit of it is used, and
/// every replica gets a timeout. Whether the run goes on.
fn quiet_moment<P: Party>(
    seats: &mut [Seat<P>],
    ids: &[ReplicaId],
    reader: &Reader,
    turns: u64,
    before: u64,
    patience: &mut u32,
    moments: &mut Moments,
) -> Result<Progress, NoMemory>
    requires ready { IsReady reader.now.members.now reader.now.ring.now ids.now (map (seen P.made P.journal P.shut) seats.old) }
    requires apart { AreDistinct ids.now }
    requires within { before ≤ turns }
    ensures ready { IfOk result (λ told. IsReady reader.now.members.now reader.now.ring.now ids.now
        (map (seen P.made P.journal P.shut) seats.new)) }
    ensures within { IfOk result (λ told. GoesOn told (λ n. n ≤ turns)) }
    ensures more { IfOk result (λ told. GoesOn told (λ n. before + patience.new < n + patience.old)) }
    ensures quieted { IfOk result (λ told. Quieted turns (map (seen P.made P.journal P.shut) seats.old) before patience.old moments.old told
        (map (seen P.made P.journal P.shut) seats.new) patience.new moments.new) }
{
    let entries = count_entries(reader.alloc, seats)?;
    let nudged = give_all(seats, ids, reader, Mover::Nudge, turns, before)?;
    if nudged.spent || nudged.moved || *patience == 0 {
        moments.push(Moment {
            entries,
            timed: false,
        })?;
        return Ok(if nudged.spent {
            Progress::Cut
        } else if nudged.moved {
            Progress::On(nudged.entries)
        } else {
            Progress::Rest(nudged.entries)
        });
    }
    *patience -= 1;
    let timed = give_all(seats, ids, reader, Mover::Timeout, turns, nudged.entries)?;
    moments.push(Moment {
        entries,
        timed: true,
    })?;
    Ok(if timed.spent {
        Progress::Cut
    } else {
        Progress::On(timed.entries)
    })
}

/// One turn: the timeouts that are due are given, and then a step is picked. A step that makes no entry takes a refused copy off the way.
fn turn<P: Party>(
    seats: &mut [Seat<P>],
    ids: &[ReplicaId],
    reader: &Reader,
    generator: &mut ChaCha8Rng,
    turns: u64,
    before: u64,
    lines: &mut Vec<TimeoutLine>,
) -> Result<Progress, NoMemory>
    requires ready { IsReady reader.now.members.now reader.now.ring.now ids.now (map (seen P.made P.journal P.shut) seats.old) }
    requires apart { AreDistinct ids.now }
    requires within { before ≤ turns }
    ensures ready { IfOk result (λ told. IsReady reader.now.members.now reader.now.ring.now ids.now
        (map (seen P.made P.journal P.shut) seats.new)) }
    ensures within { IfOk result (λ told. Comes told (λ n. (before ≤ n) × (n ≤ turns))) }
    ensures fewer { IfOk result (λ told. told ≡ progress.Progress.On before → copies (map (seen P.made P.journal P.shut) seats.old)
        ≡ copies (map (seen P.made P.journal P.shut) seats.new) + 1) }
    ensures turned { IfOk result (λ told. Turned turns (map (seen P.made P.journal P.shut) seats.old) generator.old before lines.old.items told
        (map (seen P.made P.journal P.shut) seats.new) generator.new lines.new.items) }
{
    let walk = walk_lines(seats, ids, reader, turns, before, lines)?;
    if walk.spent || walk.entries >= turns {
        return Ok(Progress::Cut);
    }
    match pick(seats, ids, reader, generator)? {
        None => Ok(Progress::Rest(walk.entries)),
        Some(grew) => Ok(Progress::On(if grew { walk.entries + 1 } else { walk.entries })),
    }
}

/// Turns until one makes an entry, or no step is left, or the run is cut off.
///
/// Each turn before that one takes a refused copy off the way, so there are no more of them than copies on their way.
fn turn_until<P: Party>(
    seats: &mut [Seat<P>],
    ids: &[ReplicaId],
    reader: &Reader,
    generator: &mut ChaCha8Rng,
    turns: u64,
    before: u64,
    lines: &mut Vec<TimeoutLine>,
) -> Result<Progress, NoMemory>
    requires ready { IsReady reader.now.members.now reader.now.ring.now ids.now (map (seen P.made P.journal P.shut) seats.old) }
    requires apart { AreDistinct ids.now }
    requires within { before ≤ turns }
    ensures ready { IfOk result (λ told. IsReady reader.now.members.now reader.now.ring.now ids.now
        (map (seen P.made P.journal P.shut) seats.new)) }
    ensures within { IfOk result (λ told. Comes told (λ n. (before ≤ n) × (n ≤ turns))) }
    ensures more { IfOk result (λ told. GoesOn told (λ n. before < n)) }
    ensures turned { IfOk result (λ told. Turned turns (map (seen P.made P.journal P.shut) seats.old) generator.old before lines.old.items told
        (map (seen P.made P.journal P.shut) seats.new) generator.new lines.new.items) }
{
    let mut entries = before;
    while entries == before {
        match turn(seats, ids, reader, generator, turns, entries, lines)? {
            Progress::Cut => return Ok(Progress::Cut),
            Progress::On(more) => entries = more,
            Progress::Rest(more) => return Ok(Progress::Rest(more)),
        }
    }
    Ok(Progress::On(entries))
}

/// Plays a run to its end: uses up its timeouts and its patience, and adds its quiet moments to those that are given. Whether it was cut off.
pub(crate) fn play<P: Party>(
    seats: &mut [Seat<P>],
    ids: &[ReplicaId],
    reader: &Reader,
    turns: u64,
    generator: &mut ChaCha8Rng,
    lines: &mut Vec<TimeoutLine>,
    patience: &mut u32,
    moments: &mut Moments,
) -> Result<bool, NoMemory>
    requires ready { IsReady reader.now.members.now reader.now.ring.now ids.now (map (seen P.made P.journal P.shut) seats.old) }
    requires apart { AreDistinct ids.now }
    ensures open { IfOk result (λ spent. AllOpen (map (seen P.made P.journal P.shut) seats.new)) }
    ensures played { IfOk result (λ spent. Played turns (map (seen P.made P.journal P.shut) seats.old) generator.old lines.old.items patience.old
        moments.old spent (map (seen P.made P.journal P.shut) seats.new) patience.new moments.new) }
{
    let mut entries: u64 = 0;
    while entries < turns {
        match turn_until(seats, ids, reader, generator, turns, entries, lines)? {
            Progress::Cut => return Ok(true),
            Progress::On(more) => entries = more,
            Progress::Rest(more) => {
                match quiet_moment(seats, ids, reader, turns, more, patience, moments)? {
                    Progress::Cut => return Ok(true),
                    Progress::On(after) => entries = after,
                    Progress::Rest(_after) => return Ok(false),
                }
            }
        }
    }
    Ok(true)
}
