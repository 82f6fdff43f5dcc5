//! Asking for a view (PBFT, section 4.4: the message VIEW-CHANGE).
ghost use Rattle.std.specs.Prelude.{◌≡◌, ◌++◌, ◌∷◌, ◌<◌, [], false, IfOk, OnOk};
ghost use Rattle.fab_base.specs.declared.answers.Answer.{Answer};
ghost use Rattle.fab_base.specs.declared.messages.Message.{Message};
ghost use Rattle.fab_machine.specs.State.{wanted};
ghost use Rattle.fab_machine.specs.Changing.{change_of, asked};
ghost use Rattle.fab_machine.specs.Items.{to_cluster};
ghost use Rattle.local_order.specs.Ordering.{with_local};
ghost use Rattle.view_order.specs.Pieces.{IsSame};

use crate::NoMemory;
use fab_base::{Answer, Message, ViewChange};
use fab_machine::{Out, Outs};
use local_order::{Local, Order};
use std::alloc::Global;
use view_change::build;
use view_tally::reports;

/// The view that is asked for, or else the entered one.
pub(crate) fn wanted(order: &Order) -> u64
    ensures { result ≡ wanted order.now.local }
{
    match order.changing() {
        Some(asked) => asked,
        None => order.view(),
    }
}

/// The view is asked for, with this answer.
pub(crate) fn asked(
    alloc: Global,
    order: &mut Order,
    view: u64,
    answer: Answer,
) -> Result<Local, NoMemory>
    requires live { order.old.shut ≡ false }
    requires above { order.old.local.view < view }
    ensures answer { IfOk result (λ told. told.answer ≡ answer) }
    ensures outs { IfOk result (λ told. told.outs ≡ (asked order.old.roster order.old.me order.old.local view answer).outs) }
    ensures state { OnOk result (order.new ≡ with_local order.old (asked order.old.roster order.old.me order.old.local view answer).local) }
    ensures same { IsSame order.old order.new }
{
    let mut outs = Outs::new(alloc);
    ask(alloc, order, view, &mut outs).and(Ok(Local { answer, outs }))
}

/// The view is asked for: proposals and votes leave the outbox, and a ViewChange goes to the cluster.
pub(crate) fn ask(
    alloc: Global,
    order: &mut Order,
    view: u64,
    outs: &mut Outs,
) -> Result<(), NoMemory>
    requires live { order.old.shut ≡ false }
    requires above { order.old.local.view < view }
    ensures outs { OnOk result (outs.new
        ≡ outs.old ++ (asked order.old.roster order.old.me order.old.local view (Answer.Asked view)).outs) }
    ensures state { OnOk result (order.new ≡ with_local order.old (asked order.old.roster order.old.me order.old.local view (Answer.Asked view)).local) }
    ensures same { IsSame order.old order.new }
{
    outs.push(Out::Clear)?;
    put_change(alloc, order, view, outs)?;
    order.want(view);
    Ok(())
}

/// The ViewChange goes to the cluster.
fn put_change(alloc: Global, order: &Order, view: u64, outs: &mut Outs) -> Result<(), NoMemory>
    ensures { OnOk result (outs.new ≡ outs.old
        ++ to_cluster order.now.roster order.now.me (Message.ViewChange (change_of order.now.me order.now.local view)) ∷ []) }
{
    let change = change_of(alloc, order, view)?;
    order.put(Message::ViewChange(change), outs)
}

/// What the replica reports: its low mark with the proof, and the prepared certificates that it keeps, by slot.
fn change_of(alloc: Global, order: &Order, view: u64) -> Result<ViewChange, NoMemory>
    ensures { IfOk result (λ change. change ≡ change_of order.now.me order.now.local view) }
{
    let prepared = reports(alloc, order.prepared())?;
    let change = build(
        alloc,
        order.me(),
        view,
        order.low(),
        order.low_proof(),
        &prepared,
    );
    drop(prepared);
    change
}
