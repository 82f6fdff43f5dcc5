//! Joining those that ask for a view (PBFT, section 4.5.2).
ghost use Rattle.std.specs.Prelude.{◌≡◌, ◌++◌, false, OnOk};
ghost use Rattle.fab_base.specs.Roster.{size_of};
ghost use Rattle.fab_machine.specs.State.{wanted};
ghost use Rattle.fab_machine.specs.Changing.{view_to_join, joined};
ghost use Rattle.fab_machine.specs.LocalState.{IsLocalState};
ghost use Rattle.local_order.specs.Ordering.{with_local};
ghost use Rattle.view_order.specs.Pieces.{IsSame};

use crate::NoMemory;
use crate::asking::{ask, wanted};
use fab_base::ViewChange;
use fab_machine::Outs;
use local_order::Order;
use std::alloc::Global;
use view_tally::to_join;

/// The replica asks for the view that enough members ask for, where there is one.
pub(crate) fn join(
    alloc: Global,
    order: &mut Order,
    changes: &[ViewChange],
    outs: &mut Outs,
) -> Result<(), NoMemory>
    requires live { order.old.shut ≡ false }
    requires whole { IsLocalState order.old.roster order.old.me order.old.local }
    ensures outs { OnOk result (outs.new ≡ outs.old ++ (joined order.old.roster order.old.me order.old.local
        (view_to_join (size_of order.old.roster order.old.me.cluster) changes.now (wanted order.old.local))).outs) }
    ensures state { OnOk result (order.new ≡ with_local order.old (joined order.old.roster order.old.me order.old.local
        (view_to_join (size_of order.old.roster order.old.me.cluster) changes.now (wanted order.old.local))).local) }
    ensures same { IsSame order.old order.new }
{
    match to_join(order.size(), changes, wanted(order)) {
        Some(view) => ask(alloc, order, view, outs),
        None => Ok(()),
    }
}
