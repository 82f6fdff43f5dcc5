//! Copies: of every kind of message, and of what is sent and answered.

use crate::messages::{Kind, item, kind_of, message};
use crate::words::{Answer, Unanswered, at, bytes, shown};
use fab_base::{ClientId, Duplicate, Hash32, NoMemory, Outcome, ReplicaId, Reply, Take, Who};
use std::alloc::Global;

/// `KIND`: whether a copy of such a message, or of such a part, is equal to it. `KIND KIND`: whether messages of two kinds are equal.
pub(crate) fn answer(alloc: Global, line: &str) -> Answer {
    match (kind_of(at(line, 1)), kind_of(at(line, 2))) {
        (Some(kind), Some(other)) => {
            shown(alloc, &(message(alloc, kind)? == message(alloc, other)?))
        }
        (Some(kind), None) => shown(alloc, &message_copied(alloc, kind)?),
        _ => part(alloc, line),
    }
}

/// Whether a copy is equal to the value.
pub(crate) fn is_copied<T: Duplicate + Eq>(value: &T) -> Result<bool, NoMemory> {
    Ok(value.duplicate()? == *value)
}

/// Whether a copy of a message of this kind is equal to it.
fn message_copied(alloc: Global, kind: Kind) -> Result<bool, NoMemory> {
    is_copied(&message(alloc, kind)?)
}

/// The same of a part.
fn part(alloc: Global, line: &str) -> Answer {
    let digest = Hash32 { bytes: [7; 32] };
    match at(line, 1) {
        "item" => shown(alloc, &is_copied(&item(alloc)?)?),
        "take" => shown(alloc, &is_copied(&Take::Conflict { kept: digest })?),
        "outcome" => shown(alloc, &is_copied(&Outcome::Early)?),
        "reply" => shown(alloc, &is_copied(&Reply::Found(bytes(alloc, line, 1)?))?),
        "digest" => shown(alloc, &is_copied(&digest)?),
        _ => someone(alloc, at(line, 1)),
    }
}

/// The same of who takes part.
fn someone(alloc: Global, who: &str) -> Answer {
    let client = ClientId { number: 3 };
    let replica = ReplicaId {
        cluster: 2,
        index: 3,
    };
    match who {
        "client" => shown(alloc, &is_copied(&client)?),
        "replica" => shown(alloc, &is_copied(&replica)?),
        "who" => shown(alloc, &is_copied(&Who::Replica(replica))?),
        _ => Err(Unanswered::Unreadable),
    }
}
