//! The making of a book.
ghost use Rattle.std.specs.Prelude.{◌≡◌, ◌≤◌, IfOk};
ghost use Rattle.checkpoint_core.specs.Checkpoints.{no_checkpoints};

use crate::NoMemory;
use crate::book::StableBook;
use fab_base::MOST_MEMBERS;
use std::alloc::Global;

/// The book of a cluster of `n` members, 1 to 10, at low mark 0, in which no Checkpoint counts. Fails only where memory is refused.
pub fn stable_votes(alloc: Global, n: u8) -> Result<StableBook, NoMemory>
    requires { (1 ≤ n) × (n ≤ MOST_MEMBERS) }
    ensures { IfOk result (λ book. book ≡ no_checkpoints n) }
{
    Ok(StableBook {
        low: 0,
        members: n,
        votes: Vec::new(alloc),
    })
}
