//! The words of a case.
ghost use Rattle.std.specs.Prelude.{◌≡◌, ⊤};

use fab_base::ReplicaId;
use std::alloc::{AllocError, AllocFailed};

/// Why a case gets no answer of its own.
#[derive(Clone, Copy, Debug, PartialEq, Eq)]
pub(crate) enum Unanswered {
    Unreadable,
    NoMemory,
}

impl From<AllocError> for Unanswered {
    ghost from_gives = { λ _ _. ⊤ };

    fn from(_error: AllocError) -> Unanswered {
        Unanswered::NoMemory
    }
}

impl<T: Drop> From<AllocFailed<T>> for Unanswered {
    ghost from_gives = { λ _ _. ⊤ };

    fn from(_error: AllocFailed<T>) -> Unanswered {
        Unanswered::NoMemory
    }
}

/// A view, a slot, a round or a low mark.
pub(crate) fn number(text: &str) -> Result<u64, Unanswered> {
    text.parse().or(Err(Unanswered::Unreadable))
}

/// The number of a cluster, its size, or the index of a member.
pub(crate) fn small(text: &str) -> Result<u8, Unanswered> {
    text.parse().or(Err(Unanswered::Unreadable))
}

/// A count of a plea.
pub(crate) fn count(text: &str) -> Result<u32, Unanswered> {
    text.parse().or(Err(Unanswered::Unreadable))
}

/// A replica, as 1.0: its cluster and its index.
pub(crate) fn replica(text: &str) -> Result<ReplicaId, Unanswered> {
    match text.split_once('.') {
        Some((cluster, index)) => Ok(ReplicaId {
            cluster: small(cluster)?,
            index: small(index)?,
        }),
        None => Err(Unanswered::Unreadable),
    }
}
