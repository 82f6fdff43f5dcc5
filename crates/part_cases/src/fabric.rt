//! Fabrics of given sizes.
use crate::words::{Unanswered, small};
use fab_base::{Members, is_within_limits, members};
use std::alloc::Global;

/// The members of a fabric of clusters of these sizes, without clients.
pub(crate) fn fabric(alloc: Global, words: &[&str]) -> Result<Members, Unanswered> {
    let mut sizes = Vec::new(alloc);
    for word in words {
        sizes.push(small(word)?)?;
    }
    of_sizes(alloc, &sizes)
}

fn of_sizes(alloc: Global, sizes: &[u8]) -> Result<Members, Unanswered> {
    if is_within_limits(sizes, &[], 4, 4, 1) {
        Ok(members(alloc, sizes, &[], 4, 4, 1)?)
    } else {
        Err(Unanswered::Unreadable)
    }
}
