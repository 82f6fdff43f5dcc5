//! One step of a run.
ghost use Rattle.std.specs.Prelude.{◌≡◌, ℕ, ◌+◌, ◌<◌, ◌≤◌, Bool, true, false, [], ◌∷◌, map, length, IfOk, MatchOption, Some, slice_index_or};
ghost use Rattle.run_words.specs.Journal.{moves};
ghost use Rattle.run_words.specs.Runs.{Rules, Run, next, steps, is_spent, Step};
ghost use Rattle.sim_sched.specs.Seats.{SeatView, seen, receive, copies, AllOpen, seat_steps, IsChosen, IsPossible};
ghost use Rattle.sim_sched.specs.Putting.{AreDistinct, ids_of, given_at, heard_at};
ghost use Rattle.sim_sched.specs.Simulating.{Acts, AllMadeWith, IsReady, Picked, IsTimed};

use crate::choosing::{count_all, find};
use crate::putting::{deliver, place_of};
use crate::seats::{Choice, Seat};
use copy_reader::Reader;
use fab_base::{NoMemory, ReplicaId};
use rand_chacha::ChaCha8Rng;
use rand_core::utils::NextWord;
use run_words::{Mover, Party};
use std::alloc::Global;

/// Gives an event at a place. Whether an entry was made.
pub(crate) fn give_at<P: Party>(
    seats: &mut [Seat<P>],
    ids: &[ReplicaId],
    alloc: Global,
    place: usize,
    mover: Mover,
) -> Result<bool, NoMemory>
    requires named { ids.now ≡ ids_of (map (seen P.made P.journal P.shut) seats.old) }
    requires apart { AreDistinct ids.now }
    requires open { AllOpen (map (seen P.made P.journal P.shut) seats.old) }
    requires there { place < length seats.old }
    ensures { IfOk result (λ grew. (v : SeatView) → slice_index_or (map (seen P.made P.journal P.shut) seats.old) place v ≡ v
        → (map (seen P.made P.journal P.shut) seats.new ≡ given_at place mover v (map (seen P.made P.journal P.shut) seats.old))
        × (grew ≡ moves v.maker v.journal mover)) }
{
    let (grew, parcels) = seats[place].give(alloc, mover)?;
    let from = ids[place];
    deliver(seats, ids, from, parcels)?;
    Ok(grew)
}

/// Gives a timeout to a replica. Whether an entry was made; none is where nobody has its id.
pub(crate) fn time_out<P: Party>(
    seats: &mut [Seat<P>],
    ids: &[ReplicaId],
    alloc: Global,
    replica: ReplicaId,
) -> Result<bool, NoMemory>
    requires named { ids.now ≡ ids_of (map (seen P.made P.journal P.shut) seats.old) }
    requires apart { AreDistinct ids.now }
    requires open { AllOpen (map (seen P.made P.journal P.shut) seats.old) }
    ensures { IfOk result (λ grew. IsTimed replica (map (seen P.made P.journal P.shut) seats.old)
        (map (seen P.made P.journal P.shut) seats.new) grew) }
{
    match place_of(ids, replica) {
        None => Ok(false),
        Some(place) => give_at(seats, ids, alloc, place, Mover::Timeout),
    }
}

/// Hears a copy at a place. Whether an entry was made.
pub(crate) fn hear_at<P: Party>(
    seats: &mut [Seat<P>],
    place: usize,
    copy: usize,
    reader: &Reader,
) -> Result<bool, NoMemory>
    requires open { AllOpen (map (seen P.made P.journal P.shut) seats.old) }
    requires there { place < length seats.old }
    requires made { AllMadeWith reader.now.members.now reader.now.ring.now (map (seen P.made P.journal P.shut) seats.old) }
    requires waits { (v : SeatView) → slice_index_or (map (seen P.made P.journal P.shut) seats.old) place v ≡ v → copy < length v.way }
    ensures { IfOk result (λ grew. (v : SeatView) → slice_index_or (map (seen P.made P.journal P.shut) seats.old) place v ≡ v
        → Acts place (Choice.Hear copy) v (map (seen P.made P.journal P.shut) seats.old)
        (map (seen P.made P.journal P.shut) seats.new) grew) }
{
    seats[place].hear(copy, reader)
}

/// Makes a step at a place. Whether an entry was made.
pub(crate) fn act_at<P: Party>(
    seats: &mut [Seat<P>],
    ids: &[ReplicaId],
    reader: &Reader,
    place: usize,
    choice: Choice,
) -> Result<bool, NoMemory>
    requires named { ids.now ≡ ids_of (map (seen P.made P.journal P.shut) seats.old) }
    requires apart { AreDistinct ids.now }
    requires open { AllOpen (map (seen P.made P.journal P.shut) seats.old) }
    requires there { place < length seats.old }
    requires made { AllMadeWith reader.now.members.now reader.now.ring.now (map (seen P.made P.journal P.shut) seats.old) }
    requires waits { (v : SeatView) → slice_index_or (map (seen P.made P.journal P.shut) seats.old) place v ≡ v → IsPossible v choice }
    ensures { IfOk result (λ grew. (v : SeatView) → slice_index_or (map (seen P.made P.journal P.shut) seats.old) place v ≡ v
        → Acts place choice v (map (seen P.made P.journal P.shut) seats.old) (map (seen P.made P.journal P.shut) seats.new) grew) }
{
    match choice {
        Choice::Hear(copy) => hear_at(seats, place, copy, reader),
        Choice::Give(mover) => give_at(seats, ids, reader.alloc, place, mover),
    }
}

/// Picks a step by the next word and makes it. Whether an entry was made, else a copy was refused and has left the way; `None` where no
/// step can move.
pub(crate) fn pick<P: Party>(
    seats: &mut [Seat<P>],
    ids: &[ReplicaId],
    reader: &Reader,
    generator: &mut ChaCha8Rng,
) -> Result<Option<bool>, NoMemory>
    requires ready { IsReady reader.now.members.now reader.now.ring.now ids.now (map (seen P.made P.journal P.shut) seats.old) }
    requires apart { AreDistinct ids.now }
    ensures ready { IfOk result (λ told. IsReady reader.now.members.now reader.now.ring.now ids.now
        (map (seen P.made P.journal P.shut) seats.new)) }
    ensures picked { IfOk result (λ told. Picked (map (seen P.made P.journal P.shut) seats.old) generator.old told
        (map (seen P.made P.journal P.shut) seats.new) generator.new) }
    ensures fewer { IfOk result (λ told. told ≡ Some false → copies (map (seen P.made P.journal P.shut) seats.old)
        ≡ copies (map (seen P.made P.journal P.shut) seats.new) + 1) }
{
    let count = count_all(seats);
    if count == 0 {
        return Ok(None);
    }
    let word = generator.next_word();
    let number = (word as u128 % count) as usize;
    let (place, own) = find(seats, number);
    let choice = seats[place].choice(own);
    let grew = act_at(seats, ids, reader, place, choice)?;
    Ok(Some(grew))
}
