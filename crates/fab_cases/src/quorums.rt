//! How many members may be faulty, how many make a quorum, and who is primary.

use crate::words::{Answer, Unanswered, at, number, small};
use fab_base::{faults, primary, quorum};
use std::alloc::Global;

/// `of N`: the size of a quorum of N members, and how many of them may be faulty. `primary N VIEW`: the primary of a view.
pub(crate) fn answer(alloc: Global, line: &str) -> Answer {
    match small(line, 2)? {
        0 => Err(Unanswered::Unreadable),
        n if at(line, 1) == "of" => {
            Ok(format!(in alloc; "{} of {n}, {} may be faulty", quorum(n), faults(n))?)
        }
        n => Ok(format!(in alloc; "member {}", primary(number(line, 3)?, n))?),
    }
}
