//! The making of a `Rounds`.
ghost use Rattle.std.specs.Prelude.{◌≡◌, IfOk};
ghost use Rattle.fab_machine.specs.State.{fresh_rounds};

use crate::NoMemory;
use crate::book::Rounds;
use std::alloc::Global;

/// The rounds of this many clusters and clients: no certificate is kept, and no round is executed. It fails only where memory is refused.
pub fn rounds(alloc: Global, clusters: u8, clients: u8) -> Result<Rounds, NoMemory>
    ensures { IfOk result (λ made. made ≡ record { clusters = clusters; clients = clients; rounds = fresh_rounds }) }
{
    Rounds::new(alloc, clusters, clients)
}
