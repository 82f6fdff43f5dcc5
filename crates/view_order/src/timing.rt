//! Whether a replica that waited long enough asks for the next view (PBFT, section 4.4; what is due is ours).
ghost use Rattle.std.specs.Prelude.{◌≡◌, ◌+◌, ◌<◌, ◌≤◌, ◌^◌, ◌&&◌, false, not, length, nat_lt, IfOk, OnOk};
ghost use Rattle.std.specs.Option.{is_some};
ghost use Rattle.fab_base.specs.Limits.{IsWithinLimits};
ghost use Rattle.fab_base.specs.declared.answers.Answer.{Answer};
ghost use Rattle.fab_base.specs.declared.limits.TheConstants.{GREATEST_NUMBER};
ghost use Rattle.pbft_slots.specs.Window.{high, batch_at};
ghost use Rattle.fab_machine.specs.Changing.{asked};
ghost use Rattle.fab_machine.specs.State.{wanted};
ghost use Rattle.fab_machine.specs.LocalState.{IsLocalState};
ghost use Rattle.fab_machine.specs.Step.{can_time_out};
ghost use Rattle.fab_machine.specs.TimingOut.{holds_above, is_overdue, timeout};
ghost use Rattle.local_order.specs.Ordering.{with_local};
ghost use Rattle.view_order.specs.Pieces.{IsSame};

use crate::NoMemory;
use crate::asking::{asked, wanted};
use fab_base::{Answer, GREATEST_NUMBER, Vote};
use fab_machine::Outs;
use local_order::{Local, Order};
use pbft_slots::Slots;
use std::alloc::Global;

/// The replica waited long enough: it asks for the view above the wanted one, where something is due and rounds up to the low mark were executed.
pub(crate) fn timeout(
    alloc: Global,
    order: &mut Order,
    own: bool,
    known: bool,
) -> Result<Local, NoMemory>
    requires live { order.old.shut ≡ false }
    requires limits { IsWithinLimits order.old.roster }
    requires whole { IsLocalState order.old.roster order.old.me order.old.local }
    ensures answer { IfOk result (λ told. told.answer ≡ (timeout order.old.roster order.old.me order.old.local own known).answer) }
    ensures outs { IfOk result (λ told. told.outs ≡ (timeout order.old.roster order.old.me order.old.local own known).outs) }
    ensures state { OnOk result (order.new ≡ with_local order.old (timeout order.old.roster order.old.me order.old.local own known).local) }
    ensures same { IsSame order.old order.new }
{
    if order.executed() < order.low() {
        return Ok(Local {
            answer: Answer::Behind { low: order.low() },
            outs: Outs::new(alloc),
        });
    }
    if is_late(order, own, known) {
        ask_next(alloc, order)
    } else {
        Ok(Local {
            answer: Answer::Calm,
            outs: Outs::new(alloc),
        })
    }
}

/// The view above the wanted one is asked for.
fn ask_next(alloc: Global, order: &mut Order) -> Result<Local, NoMemory>
    requires live { order.old.shut ≡ false }
    requires room { wanted order.old.local < GREATEST_NUMBER }
    requires whole { IsLocalState order.old.roster order.old.me order.old.local }
    ensures answer { IfOk result (λ told. told.answer ≡ Answer.Asked (wanted order.old.local + 1)) }
    ensures outs { IfOk result (λ told. told.outs
        ≡ (asked order.old.roster order.old.me order.old.local (wanted order.old.local + 1) (Answer.Asked (wanted order.old.local + 1))).outs) }
    ensures state { OnOk result (order.new ≡ with_local order.old
        (asked order.old.roster order.old.me order.old.local (wanted order.old.local + 1) (Answer.Asked (wanted order.old.local + 1))).local) }
    ensures same { IsSame order.old order.new }
{
    let view = wanted(order) + 1;
    asked(alloc, order, view, Answer::Asked { view })
}

/// Whether it would ask. Takes no memory.
pub(crate) fn is_due(order: &Order, own: bool, known: bool) -> bool
    requires limits { IsWithinLimits order.now.roster }
    requires whole { IsLocalState order.now.roster order.now.me order.now.local }
    ensures { result ≡ can_time_out order.now.roster order.now.me order.now.local own known }
{
    is_late(order, own, known) && order.low() <= order.executed()
}

/// Whether a view is to be asked for, if the replica isn't behind: the own cluster's certificate of the next round isn't kept, something is due
/// that didn't come, and there is a view above the wanted one.
fn is_late(order: &Order, own: bool, known: bool) -> bool
    requires limits { IsWithinLimits order.now.roster }
    requires whole { IsLocalState order.now.roster order.now.me order.now.local }
    ensures { result ≡ (not own && is_overdue order.now.local known && nat_lt (wanted order.now.local) GREATEST_NUMBER) }
{
    !own && is_overdue(order, known) && wanted(order) < GREATEST_NUMBER
}

/// Whether something is due: a view is asked for already, a request waits, another cluster's certificate of the next round is known, or a batch
/// is held for it or for a later one.
fn is_overdue(order: &Order, known: bool) -> bool
    requires limits { IsWithinLimits order.now.roster }
    requires whole { IsLocalState order.now.roster order.now.me order.now.local }
    ensures { result ≡ is_overdue order.now.local known }
{
    order.changing().is_some()
        || order.waits()
        || known
        || holds_above(order.slots(), order.executed())
}

/// Whether a slot above the executed rounds holds a batch.
fn holds_above(slots: &Slots<Vote>, executed: u64) -> bool
    requires { high slots.now + 1 < 2 ^ 64 }
    ensures { result ≡ holds_above executed (slots.now.low + 1) slots.now.slots }
{
    let first = slots.low() + 1;
    for slot in first..first + slots.width() {
        if holds(slots, executed, slot) {
            return true;
        }
    }
    false
}

/// Whether this slot is above the executed rounds and holds a batch.
fn holds(slots: &Slots<Vote>, executed: u64, slot: u64) -> bool
    ensures { result ≡ (nat_lt executed slot && is_some (batch_at slots.now slot)) }
{
    executed < slot && slots.batch(slot).is_some()
}
