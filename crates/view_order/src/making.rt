//! The making of a `ViewOrder`.
ghost use Rattle.std.specs.Prelude.{◌≡◌, [], false, IfOk, IsTrue};
ghost use Rattle.fab_base.specs.Roster.{is_replica};
ghost use Rattle.fab_machine.specs.State.{fresh_local};

use crate::NoMemory;
use crate::views::ViewOrder;
use fab_base::{Members, ReplicaId};
use local_order::order;
use std::alloc::Global;

/// The ordering of the cluster of a replica, which is one of the members: view 0, no view is asked for, and nothing was heard. It fails only
/// where memory is refused.
pub fn view_order(alloc: Global, members: Members, me: ReplicaId) -> Result<ViewOrder, NoMemory>
    requires { IsTrue (is_replica members me) }
    ensures { IfOk result (λ made. made ≡ record { roster = members; me = me; local = fresh_local members me; changes = []; shut = false }) }
{
    // For the proof: the members are within the limits of a fabric.
    let _ = members.clusters();
    Ok(ViewOrder {
        order: order(alloc, members, me)?,
        changes: Vec::new(alloc),
    })
}
