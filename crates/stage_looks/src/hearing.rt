//! One act of hearing.

ghost use Rattle.std.specs.Prelude.{◌≡◌};
ghost use Rattle.turn_lock.specs.Passes.{view, numbers, first_machine};
ghost use Rattle.run_words.specs.Acts.{IsFor};
ghost use Rattle.run_words.specs.declared.party.Act as acts;
ghost use Rattle.party_turn.specs.Turns.{IsPartyPass};
ghost use Rattle.turn_laws.specs.Workers.{Kind};
ghost use Rattle.stage_looks.specs.Acts.{IsHear, Hears, KeepsKind, heard_of};

use crate::items::Item;
use crate::telling::is_refused;
use party_turn::{Acting, Answered};
use run_words::{Act, Party};
use turn_lock::{Busy, Pass, Turn};

/// What came of an item.
#[derive(Drop)]
pub(crate) enum Heard {
    /// It is an entry.
    Done,
    /// Memory was refused in the middle of it: the party is shut.
    Lost,
    /// Another worker has the turn. The item comes back.
    Busy(Item),
}

/// The item of a call that came back.
fn item_of(call: Act) -> Item
    requires { IsHear call }
    ensures { call ≡ acts.Act.Hear result.origin result.heard }
{
    match call {
        Act::Hear(origin, heard) => Item { origin, heard },
        _ => unreachable!(),
    }
}

/// What came of an item that was heard.
fn heard_of(answer: Answered) -> Heard
    ensures { result ≡ heard_of answer.told }
{
    let refused = is_refused(&answer.told);
    drop(answer);
    if refused { Heard::Lost } else { Heard::Done }
}

/// Hears an item, in one claim of the turn.
pub(crate) fn hear<P: Party>(
    turn: &Turn<Acting<P>>,
    pass: &mut Pass<Acting<P>>,
    item: Item,
) -> Heard
    requires pass { IsPartyPass P.made turn.now pass.old }
    requires item { IsFor (P.made (first_machine turn.now).first) (acts.Act.Hear item.origin item.heard) }
    ensures pass { IsPartyPass P.made turn.now pass.new }
    ensures numbers { numbers pass.new ≡ numbers pass.old }
    ensures kinds { KeepsKind Kind.Hearing (view pass.old) (view pass.new) }
    ensures hears { Hears result item (view pass.old) (view pass.new) }
{
    match turn.act(pass, Act::Hear(item.origin, item.heard)) {
        Err(Busy { call, seat: _ }) => Heard::Busy(item_of(call)),
        Ok(answer) => heard_of(answer),
    }
}
