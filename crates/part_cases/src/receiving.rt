//! How often each member receives.
use crate::words::Unanswered;
use fab_base::{MOST_MEMBERS, Members, ReplicaId, Who};
use geo_share::{is_recipient, recipients};
use std::alloc::Global;

/// How often each member of cluster 1 receives in the rounds from 1 on, and whether each is told the same.
pub(crate) fn receivers(
    alloc: Global,
    members: &Members,
    rounds: u64,
) -> Result<String, Unanswered> {
    if members.clusters() == 0 {
        return Err(Unanswered::Unreadable);
    }
    let size = members.size(1);
    let mut received = [0u64; MOST_MEMBERS as usize];
    let mut told = [0u64; MOST_MEMBERS as usize];
    for round in 1..rounds.saturating_add(1) {
        for target in recipients(alloc, members, 1, round)?.as_slice() {
            count(&mut received, target.index);
        }
        for index in 0..size {
            let id = ReplicaId { cluster: 1, index };
            if members.has(Who::Replica(id)) && is_recipient(members, id, round) {
                count(&mut told, index);
            }
        }
    }
    let agree = if received == told {
        "as they are told"
    } else {
        "and are told otherwise"
    };
    let mut text = format!(in alloc; "of {size} members, in {rounds} rounds, {agree}:")?;
    for index in 0..size {
        let times = received.get(index as usize).copied().unwrap_or(0);
        text.push_str(format!(in alloc; " {times}")?.as_str())?;
    }
    Ok(text)
}

/// Counts one more.
fn count(times: &mut [u64], index: u8) {
    if let Some(times) = times.get_mut(index as usize) {
        *times = times.saturating_add(1);
    }
}
