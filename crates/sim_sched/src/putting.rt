//! Copies come to their receivers.
ghost use Rattle.std.specs.Prelude.{◌≡◌, ℕ, ◌+◌, ◌<◌, ◌≤◌, Bool, true, false, [], ◌∷◌, map, length, IfOk, MatchOption, slice_index_or};
ghost use Rattle.std.specs.List.{flat_map};
ghost use Rattle.fab_base.specs.declared.ids.ReplicaId.{ReplicaId};
ghost use Rattle.run_words.specs.Keyed.{is_same};
ghost use Rattle.run_words.specs.Runs.{copies_of};
ghost use Rattle.sim_sched.specs.Seats.{seen, receive};
ghost use Rattle.sim_sched.specs.Putting.{IsNone, AreDistinct, ids_of, with_copy};

use crate::seats::Seat;
use fab_base::{NoMemory, ReplicaId};
use run_words::{Origin, Parcel, Parcels, Party, Pending};

/// Whether two ids are the same.
#[tactic(auto, unfolding(run_words::specs::Keyed::is_same))]
fn same(a: ReplicaId, b: ReplicaId) -> bool
    ensures { result ≡ is_same a b }
{
    a.cluster == b.cluster && a.index == b.index
}

/// The place of an id.
pub(crate) fn place_of(ids: &[ReplicaId], to: ReplicaId) -> Option<usize>
    ensures { MatchOption result (IsNone to ids.now) (λ place. (place < length ids.now)
        × (is_same to (slice_index_or ids.now place to) ≡ true)) }
{
    for (place, id) in ids.iter().enumerate() {
        if same(to, *id) {
            return Some(place);
        }
    }
    None
}

impl<P: Party> Seat<P> {
    /// A copy more, at the end.
    fn take_in(&mut self, copy: Pending) -> Result<(), NoMemory>
        ensures { IfOk result (λ done. seen P.made P.journal P.shut self.new ≡ with_copy copy (seen P.made P.journal P.shut self.old)) }
    {
        self.way.push(copy)?;
        Ok(())
    }
}

/// A copy comes to its receiver.
fn put_copy<P: Party>(
    seats: &mut [Seat<P>],
    ids: &[ReplicaId],
    to: ReplicaId,
    copy: Pending,
) -> Result<(), NoMemory>
    requires named { ids.now ≡ ids_of (map (seen P.made P.journal P.shut) seats.old) }
    requires apart { AreDistinct ids.now }
    ensures { IfOk result (λ done. map (seen P.made P.journal P.shut) seats.new
        ≡ map (receive ((to, copy) ∷ [])) (map (seen P.made P.journal P.shut) seats.old)) }
{
    match place_of(ids, to) {
        None => Ok(()),
        Some(place) => seats[place].take_in(copy),
    }
}

/// A parcel comes to its receiver as often as it passes, with a copy of its bytes for each time but the last.
fn put_parcel<P: Party>(
    seats: &mut [Seat<P>],
    ids: &[ReplicaId],
    from: ReplicaId,
    parcel: Parcel,
) -> Result<(), NoMemory>
    requires named { ids.now ≡ ids_of (map (seen P.made P.journal P.shut) seats.old) }
    requires apart { AreDistinct ids.now }
    ensures { IfOk result (λ done. map (seen P.made P.journal P.shut) seats.new
        ≡ map (receive (copies_of from parcel)) (map (seen P.made P.journal P.shut) seats.old)) }
{
    let Some(again) = parcel.passes.checked_sub(1) else {
        return Ok(());
    };
    let origin = Origin::Replica {
        from,
        time: parcel.time,
    };
    for _ in 0..again {
        let copy = Pending {
            origin,
            number: parcel.number,
            load: parcel.bytes.copy()?,
        };
        put_copy(seats, ids, parcel.to, copy)?;
    }
    let copy = Pending {
        origin,
        number: parcel.number,
        load: parcel.bytes,
    };
    put_copy(seats, ids, parcel.to, copy)
}

/// Parcels come to their receivers.
pub(crate) fn deliver<P: Party>(
    seats: &mut [Seat<P>],
    ids: &[ReplicaId],
    from: ReplicaId,
    parcels: Parcels,
) -> Result<(), NoMemory>
    requires named { ids.now ≡ ids_of (map (seen P.made P.journal P.shut) seats.old) }
    requires apart { AreDistinct ids.now }
    ensures { IfOk result (λ done. map (seen P.made P.journal P.shut) seats.new
        ≡ map (receive (flat_map (copies_of from) parcels)) (map (seen P.made P.journal P.shut) seats.old)) }
{
    for parcel in parcels.into_vec() {
        put_parcel(seats, ids, from, parcel)?;
    }
    Ok(())
}

/// Requests come to their receivers.
pub(crate) fn deliver_requests<P: Party>(
    seats: &mut [Seat<P>],
    ids: &[ReplicaId],
    requests: Vec<(ReplicaId, Pending)>,
) -> Result<(), NoMemory>
    requires named { ids.now ≡ ids_of (map (seen P.made P.journal P.shut) seats.old) }
    requires apart { AreDistinct ids.now }
    ensures { IfOk result (λ done. map (seen P.made P.journal P.shut) seats.new
        ≡ map (receive requests.items) (map (seen P.made P.journal P.shut) seats.old)) }
{
    for (to, copy) in requests {
        put_copy(seats, ids, to, copy)?;
    }
    Ok(())
}
