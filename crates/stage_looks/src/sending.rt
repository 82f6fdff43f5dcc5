//! One act of sending.

ghost use Rattle.std.specs.Prelude.{◌≡◌};
ghost use Rattle.turn_lock.specs.Passes.{view, numbers, first_machine};
ghost use Rattle.party_turn.specs.Turns.{IsPartyPass};
ghost use Rattle.turn_laws.specs.Workers.{Kind};
ghost use Rattle.stage_looks.specs.Acts.{KeepsKind, Sends, sent_of};

use party_turn::{Acting, Answered};
use run_words::{Act, Parcels, Party, Told};
use turn_lock::{Busy, Pass, Turn};

/// What came of Emit.
#[derive(Drop)]
pub(crate) enum Sent {
    /// These parcels were put.
    Out(Parcels),
    /// Nothing could be sent after so many entries.
    Nothing(u64),
    /// Memory was refused. The party is as it was.
    Lost,
    /// Another worker has the turn.
    Busy,
}

/// What came of Emit, by what was told.
fn sent_of(answer: Answered) -> Sent
    ensures { result ≡ sent_of answer.told answer.entries }
{
    let Answered { told, entries } = answer;
    match told {
        Told::Out(parcels) => Sent::Out(parcels),
        Told::NoMemory => Sent::Lost,
        Told::KeySpent { used: _ } => Sent::Nothing(entries),
        Told::Core(answer) => {
            drop(answer);
            Sent::Nothing(entries)
        }
    }
}

/// Sends the first item that waits, in one claim of the turn.
pub(crate) fn emit<P: Party>(turn: &Turn<Acting<P>>, pass: &mut Pass<Acting<P>>) -> Sent
    requires pass { IsPartyPass P.made turn.now pass.old }
    ensures pass { IsPartyPass P.made turn.now pass.new }
    ensures numbers { numbers pass.new ≡ numbers pass.old }
    ensures kinds { KeepsKind Kind.Sending (view pass.old) (view pass.new) }
    ensures sends { Sends (P.made (first_machine turn.now).first) result (view pass.old) (view pass.new) }
{
    match turn.act(pass, Act::Emit) {
        Err(Busy { call, seat: _ }) => {
            drop(call);
            Sent::Busy
        }
        Ok(answer) => sent_of(answer),
    }
}
