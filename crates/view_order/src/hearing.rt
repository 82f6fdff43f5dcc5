//! What is heard of any kind: a ViewChange, a NewView, and what leaves the view as it is.
ghost use Rattle.std.specs.Prelude.{◌≡◌, ◌++◌, ◌∷◌, [], ◌&&◌, false, nat_eq, nat_lt, IfOk, OnOk};
ghost use Rattle.std.specs.List.{filter, list_any};
ghost use Rattle.fab_base.specs.Limits.{IsWithinLimits};
ghost use Rattle.fab_base.specs.declared.messages.Message.{Message};
ghost use Rattle.fab_base.specs.declared.messages.ViewChange.{ViewChange};
ghost use Rattle.fab_rules.specs.Shape.{IsShaped};
ghost use Rattle.fab_machine.specs.Attending.{attend, changes_after};
ghost use Rattle.fab_machine.specs.Changing.{change_answer, changes_by, change_taken, hear_change};
ghost use Rattle.fab_machine.specs.Adopting.{new_view_answer, changes_beyond, hear_new_view};
ghost use Rattle.fab_machine.specs.LocalState.{IsLocalState};
ghost use Rattle.local_order.specs.Ordering.{with_local};
ghost use Rattle.view_order.specs.Pieces.{IsSame};

use crate::NoMemory;
use crate::adopting::adopt;
use crate::asking::wanted;
use crate::beginning::begin;
use crate::joining::join;
use fab_base::{Answer, Message, NewView, Take, ViewChange};
use fab_machine::Outs;
use local_order::{Local, Order};
use std::alloc::Global;

/// Hears a message, by its kind.
pub(crate) fn attend(
    alloc: Global,
    order: &mut Order,
    changes: &mut Vec<ViewChange>,
    message: Message,
) -> Result<Local, NoMemory>
    requires live { order.old.shut ≡ false }
    requires limits { IsWithinLimits order.old.roster }
    requires shaped { IsShaped order.old.roster message }
    requires whole { IsLocalState order.old.roster order.old.me order.old.local }
    ensures answer { IfOk result (λ told. told.answer ≡ (attend order.old.roster order.old.me order.old.local changes.old.items message).answer) }
    ensures outs { IfOk result (λ told. told.outs ≡ (attend order.old.roster order.old.me order.old.local changes.old.items message).outs) }
    ensures state { OnOk result (order.new
        ≡ with_local order.old (attend order.old.roster order.old.me order.old.local changes.old.items message).local) }
    ensures kept { OnOk result (changes.new.items ≡ changes_after order.old.me order.old.local changes.old.items message) }
    ensures same { IsSame order.old order.new }
{
    match message {
        Message::ViewChange(change) => hear_change(alloc, order, changes, change),
        Message::NewView(new_view) => {
            let told = hear_new_view(alloc, order, changes, &new_view);
            drop(new_view);
            told
        }
        other @ (Message::Request(_)
        | Message::PrePrepare(_)
        | Message::Prepare(_)
        | Message::Commit(_)
        | Message::Checkpoint(_)
        | Message::Drvc(_)
        | Message::Rvc(_)
        | Message::ReplyNote(_)
        | Message::Share(_)
        | Message::Fetch(_)) => order.hear(other),
    }
}

/// Hears a ViewChange. One that is taken is kept.
fn hear_change(
    alloc: Global,
    order: &mut Order,
    changes: &mut Vec<ViewChange>,
    change: ViewChange,
) -> Result<Local, NoMemory>
    requires live { order.old.shut ≡ false }
    requires whole { IsLocalState order.old.roster order.old.me order.old.local }
    ensures answer { IfOk result (λ told. told.answer ≡ (hear_change order.old.roster order.old.me order.old.local changes.old.items change).answer) }
    ensures outs { IfOk result (λ told. told.outs ≡ (hear_change order.old.roster order.old.me order.old.local changes.old.items change).outs) }
    ensures state { OnOk result (order.new
        ≡ with_local order.old (hear_change order.old.roster order.old.me order.old.local changes.old.items change).local) }
    ensures kept { OnOk result (changes.new.items
        ≡ changes_by (change_answer order.old.me order.old.local changes.old.items change) changes.old.items change) }
    ensures same { IsSame order.old order.new }
{
    match change_answer(order, changes.as_slice(), &change) {
        Take::Taken => take(alloc, order, changes, change),
        how => {
            drop(change);
            Ok(Local {
                answer: Answer::Heard(how),
                outs: Outs::new(alloc),
            })
        }
    }
}

/// A ViewChange is kept, and what follows from it is done.
fn take(
    alloc: Global,
    order: &mut Order,
    changes: &mut Vec<ViewChange>,
    change: ViewChange,
) -> Result<Local, NoMemory>
    requires live { order.old.shut ≡ false }
    requires whole { IsLocalState order.old.roster order.old.me order.old.local }
    ensures answer { IfOk result (λ told. told.answer
        ≡ (change_taken order.old.roster order.old.me order.old.local (changes.old.items ++ change ∷ []) change).answer) }
    ensures outs { IfOk result (λ told. told.outs
        ≡ (change_taken order.old.roster order.old.me order.old.local (changes.old.items ++ change ∷ []) change).outs) }
    ensures state { OnOk result (order.new
        ≡ with_local order.old (change_taken order.old.roster order.old.me order.old.local (changes.old.items ++ change ∷ []) change).local) }
    ensures kept { OnOk result (changes.new.items ≡ changes.old.items ++ change ∷ []) }
    ensures same { IsSame order.old order.new }
{
    let view = change.view;
    changes.push(change)?;
    taken(alloc, order, changes.as_slice(), view)
}

/// What a ViewChange is answered: the first that holds of `Stray`, `OtherView`, `Twice` and `Taken`.
fn change_answer(order: &Order, changes: &[ViewChange], change: &ViewChange) -> Take
    ensures { result ≡ change_answer order.now.me order.now.local changes.now change.now }
{
    if change.signer.cluster != order.me().cluster {
        return Take::Stray;
    }
    if change.view <= order.view() {
        return Take::OtherView {
            view: wanted(order),
        };
    }
    if is_kept(changes, change.view, change.signer.index) {
        return Take::Twice;
    }
    Take::Taken
}

/// Whether one of the member for the view is kept.
fn is_kept(changes: &[ViewChange], view: u64, index: u8) -> bool
    ensures { result ≡ list_any (λ c. nat_eq c.view view && nat_eq c.signer.index index) changes.now }
{
    changes.iter().any(|change| change.view == view && change.signer.index == index)
}

/// A ViewChange of the view was taken, and is the last of these: the replica joins those that ask, and then it may begin the view.
fn taken(
    alloc: Global,
    order: &mut Order,
    changes: &[ViewChange],
    view: u64,
) -> Result<Local, NoMemory>
    requires live { order.old.shut ≡ false }
    requires whole { IsLocalState order.old.roster order.old.me order.old.local }
    ensures answer { (c : ViewChange) → c.view ≡ view
        → IfOk result (λ told. told.answer ≡ (change_taken order.old.roster order.old.me order.old.local changes.now c).answer) }
    ensures outs { (c : ViewChange) → c.view ≡ view
        → IfOk result (λ told. told.outs ≡ (change_taken order.old.roster order.old.me order.old.local changes.now c).outs) }
    ensures state { (c : ViewChange) → c.view ≡ view
        → OnOk result (order.new ≡ with_local order.old (change_taken order.old.roster order.old.me order.old.local changes.now c).local) }
    ensures same { IsSame order.old order.new }
{
    let mut outs = Outs::new(alloc);
    follow(alloc, order, changes, view, &mut outs).and(Ok(Local {
        answer: Answer::Heard(Take::Taken),
        outs,
    }))
}

/// Puts what follows from it.
fn follow(
    alloc: Global,
    order: &mut Order,
    changes: &[ViewChange],
    view: u64,
    outs: &mut Outs,
) -> Result<(), NoMemory>
    requires live { order.old.shut ≡ false }
    requires whole { IsLocalState order.old.roster order.old.me order.old.local }
    ensures outs { (c : ViewChange) → c.view ≡ view
        → OnOk result (outs.new ≡ outs.old ++ (change_taken order.old.roster order.old.me order.old.local changes.now c).outs) }
    ensures state { (c : ViewChange) → c.view ≡ view
        → OnOk result (order.new ≡ with_local order.old (change_taken order.old.roster order.old.me order.old.local changes.now c).local) }
    ensures same { IsSame order.old order.new }
{
    join(alloc, order, changes, outs)?;
    begin(alloc, order, changes, view, outs)
}

/// Hears a NewView. Where it is taken, the ViewChanges up to its view are let go.
fn hear_new_view(
    alloc: Global,
    order: &mut Order,
    changes: &mut Vec<ViewChange>,
    new_view: &NewView,
) -> Result<Local, NoMemory>
    requires live { order.old.shut ≡ false }
    requires limits { IsWithinLimits order.old.roster }
    requires shaped { IsShaped order.old.roster (Message.NewView new_view.now) }
    requires whole { IsLocalState order.old.roster order.old.me order.old.local }
    ensures answer { IfOk result (λ told. told.answer ≡ (hear_new_view order.old.roster order.old.me order.old.local new_view.now).answer) }
    ensures outs { IfOk result (λ told. told.outs ≡ (hear_new_view order.old.roster order.old.me order.old.local new_view.now).outs) }
    ensures state { OnOk result (order.new ≡ with_local order.old (hear_new_view order.old.roster order.old.me order.old.local new_view.now).local) }
    ensures kept { OnOk result (changes.new.items
        ≡ changes_beyond (new_view_answer order.old.me order.old.local new_view.now) changes.old.items new_view.now) }
    ensures same { IsSame order.old order.new }
{
    match new_view_answer(order, new_view) {
        Take::Taken => {
            let told = adopt(alloc, order, new_view)?;
            leave_upto(changes, new_view.view);
            Ok(told)
        }
        how => Ok(Local {
            answer: Answer::Heard(how),
            outs: Outs::new(alloc),
        }),
    }
}

/// What a NewView is answered: the first that holds of `Stray`, `OtherView` and `Taken`.
fn new_view_answer(order: &Order, new_view: &NewView) -> Take
    ensures { result ≡ new_view_answer order.now.me order.now.local new_view.now }
{
    if new_view.signer.cluster != order.me().cluster {
        return Take::Stray;
    }
    let wanted = wanted(order);
    if new_view.view <= order.view() || new_view.view < wanted {
        return Take::OtherView { view: wanted };
    }
    Take::Taken
}

/// Lets the ViewChanges go that are of views up to this one.
fn leave_upto(changes: &mut Vec<ViewChange>, view: u64)
    ensures { changes.new.items ≡ filter (λ c. nat_lt view c.view) changes.old.items }
{
    changes.retain(|change| view < change.view);
}
