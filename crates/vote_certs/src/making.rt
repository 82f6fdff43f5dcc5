//! A tally is made whole: it takes all its room at once.

ghost use Rattle.std.specs.Prelude.{◌≡◌, ◌≤◌, IfOk, replicate, None};

use crate::NoMemory;
use crate::counting::Tally;
use crate::equality::Exact;
use crate::senders::MOST_SENDERS;
use std::alloc::Global;

/// A tally of `n` senders, 1 to `MOST_SENDERS`, none of which has a counted value. It takes all the memory that the tally ever needs,
/// and fails only where that is refused.
pub fn tally<V: Exact>(alloc: Global, n: u8) -> Result<Tally<V>, NoMemory>
    requires { (1 ≤ n) × (n ≤ MOST_SENDERS) }
    ensures { IfOk result (λ t. t ≡ replicate n None) }
{
    let votes = vec![in alloc; None; usize::from(n)]?;
    Ok(Tally { votes })
}
