//! Beginning a view as its primary (PBFT, section 4.4: the message NEW-VIEW).
ghost use Rattle.std.specs.Prelude.{◌≡◌, ◌&&◌, ◌++◌, ◌∷◌, [], nat_le, OnOk};
ghost use Rattle.fab_base.specs.declared.messages.Message.{Message};
ghost use Rattle.fab_rules.specs.Shape.{is_primary};
ghost use Rattle.fab_machine.specs.State.{wanted};
ghost use Rattle.fab_machine.specs.Changing.{new_view_of, begin_outs};
ghost use Rattle.fab_machine.specs.Items.{to_cluster};

use crate::NoMemory;
use crate::asking::wanted;
use fab_base::{Bytes, Message, NewView, ViewChange, ViewChanges, primary, quorum};
use fab_machine::Outs;
use local_order::Order;
use std::alloc::Global;
use view_tally::asks;

/// The NewView of a view goes to the cluster, where the replica is its primary, the view isn't passed by, and just a quorum of ViewChanges is
/// kept for it. They come one after another, so that is once. What is kept for the view is copied.
pub(crate) fn begin(
    alloc: Global,
    order: &Order,
    changes: &[ViewChange],
    view: u64,
    outs: &mut Outs,
) -> Result<(), NoMemory>
    ensures { OnOk result (outs.new ≡ outs.old ++ begin_outs order.now.roster order.now.me order.now.local changes.now view) }
{
    if !leads(order, view) {
        return Ok(());
    }
    let asks = asks(alloc, order.size(), changes, view)?;
    if asks.len() == usize::from(quorum(order.size())) {
        show(alloc, order, view, asks, outs)
    } else {
        drop(asks);
        Ok(())
    }
}

/// Whether the replica is the primary of a view that isn't passed by.
fn leads(order: &Order, view: u64) -> bool
    ensures { result ≡ (is_primary order.now.roster order.now.me.cluster view order.now.me.index && nat_le (wanted order.now.local) view) }
{
    order.me().index == primary(view, order.size()) && wanted(order) <= view
}

/// The NewView with these ViewChanges goes to the cluster.
fn show(
    alloc: Global,
    order: &Order,
    view: u64,
    changes: ViewChanges,
    outs: &mut Outs,
) -> Result<(), NoMemory>
    ensures { OnOk result (outs.new ≡ outs.old ++ to_cluster order.now.roster order.now.me (Message.NewView (new_view_of order.now.me view changes)) ∷ []) }
{
    order.put(
        Message::NewView(NewView {
            signer: order.me(),
            view,
            changes,
            sig: Bytes::new(alloc),
        }),
        outs,
    )
}
