//! The making of a `Table`.
ghost use Rattle.std.specs.Prelude.{◌≡◌, [], length, replicate, IfOk};
ghost use Rattle.fab_base.specs.Table.{empty_state};
ghost use Rattle.seq_table.specs.Holding.{state_of};

use crate::NoMemory;
use crate::book::Table;
use std::alloc::Global;

/// An empty table for this many clients, none of whose requests took effect. It fails only where memory is refused.
pub fn table(alloc: Global, clients: u8) -> Result<Table, NoMemory>
    ensures state { IfOk result (λ made. state_of made ≡ empty_state clients) }
    ensures held { IfOk result (λ made. made.held ≡ []) }
    ensures clients { IfOk result (λ made. length made.stamps ≡ clients) }
{
    let stamps = vec![in alloc; 0u32; usize::from(clients)]?;
    Ok(Table::new(alloc, stamps))
}
