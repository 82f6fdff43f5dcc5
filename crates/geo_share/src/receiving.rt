//! The receivers of a round, and whether a replica is one of them.
ghost use Rattle.std.specs.Prelude.{◌≡◌, ◌↔◌, ◌<◌, ◌≤◌, IfOk, IsTrue, Contains};
ghost use Rattle.fab_base.specs.Quorums.{is_member};
ghost use Rattle.fab_base.specs.Roster.{is_cluster, is_replica, size_of};
ghost use Rattle.geo_share.specs.Receiving.{receiver, receivers, recipients_of};

use crate::NoMemory;
use fab_base::{Members, ReplicaId, Targets, faults};
use std::alloc::Global;

/// The members of a cluster that receive a share of this round (GeoBFT, global sharing; which ones is ours): as many as may be faulty
/// there and one more, 1 to 4 of the 1 to 10. They are those with the indexes `(round + place) mod n` for the places from 0 on, in
/// that order. Any round will do, from 0 to the greatest number. Fails only where memory is refused, and changes nothing.
pub fn recipients(
    alloc: Global,
    members: &Members,
    cluster: u8,
    round: u64,
) -> Result<Targets, NoMemory>
    requires { IsTrue (is_cluster members.now cluster) }
    ensures { IfOk result (λ targets. targets ≡ recipients_of members.now cluster round) }
{
    let size = members.size(cluster);
    let mut targets = Vec::with_capacity(alloc, faults(size) as usize + 1)?;
    for place in 0..faults(size) + 1 {
        let index = receiver(size, round, place);
        targets.push(ReplicaId { cluster, index })?;
    }
    Ok(Targets::from_vec(targets))
}

/// Whether a replica receives the shares of this round, as one of its cluster's `recipients`. Takes no memory.
pub fn is_recipient(members: &Members, me: ReplicaId, round: u64) -> bool
    requires { IsTrue (is_replica members.now me) }
    ensures is { result ≡ is_member (receivers (size_of members.now me.cluster) round) me.index }
    ensures listed { IsTrue result ↔ Contains (recipients_of members.now me.cluster round) me }
{
    receives(members.size(me.cluster), round, me.index)
}

/// Whether the member with this index is among the receivers of a cluster of this size.
fn receives(size: u8, round: u64, index: u8) -> bool
    requires { 1 ≤ size }
    ensures { result ≡ is_member (receivers size round) index }
{
    let mut indexes = (0..faults(size) + 1).map(|place| receiver(size, round, place));
    indexes.any(|receiver| receiver == index)
}

/// The index of the receiver at a place of the order of sending, in a cluster of this size.
fn receiver(size: u8, round: u64, place: u8) -> u8
    requires { place < size }
    ensures { result ≡ receiver size round place }
{
    let size = size as u64;
    ((round % size + place as u64) % size) as u8
}
