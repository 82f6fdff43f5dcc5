//! One act of a replica's own accord.

ghost use Rattle.std.specs.Prelude.{◌≡◌, ◌≢◌};
ghost use Rattle.turn_lock.specs.Passes.{view, numbers, first_machine};
ghost use Rattle.run_words.specs.Acts.{act_of};
ghost use Rattle.run_words.specs.declared.movers.Mover as movers;
ghost use Rattle.party_turn.specs.Turns.{IsPartyPass};
ghost use Rattle.turn_laws.specs.Workers.{Kind};
ghost use Rattle.stage_looks.specs.Acts.{KeepsKind, Does, did_of};

use crate::telling::{is_refused, told_entry};
use party_turn::{Acting, Answered};
use run_words::{Act, Mover, Party};
use turn_lock::{Busy, Pass, Turn};

/// What came of an act of a replica's own accord.
#[derive(Clone, Copy, Debug, Drop, PartialEq, Eq)]
pub enum Did {
    /// It is an entry.
    Moved,
    /// There was nothing to do after so many entries.
    Nothing(u64),
    /// Memory was refused in the middle of it: the party is shut.
    Lost,
    /// Another worker has the turn.
    Busy,
}

/// The act of a mover.
fn act_of(mover: Mover) -> Act
    ensures { result ≡ act_of mover }
{
    match mover {
        Mover::Batch => Act::Batch,
        Mover::Nudge => Act::Nudge,
        Mover::Emit => Act::Emit,
        Mover::Execute => Act::Execute,
        Mover::Checkpoint => Act::Checkpoint,
        Mover::Timeout => Act::Timeout,
    }
}

/// What came of an act, by what was told.
fn did_of(answer: Answered) -> Did
    ensures { result ≡ did_of answer.told answer.entries }
{
    let moved = told_entry(&answer.told);
    let refused = is_refused(&answer.told);
    let entries = answer.entries;
    drop(answer);
    if moved {
        Did::Moved
    } else if refused {
        Did::Lost
    } else {
        Did::Nothing(entries)
    }
}

/// What a replica does of its own accord, but for sending, in one claim of the turn: Batch, Nudge, Execute, Checkpoint or Timeout.
///
/// `Moved` comes where it did so: the pass has just this one entry more of its own. With every other answer it has none more.
/// `Nothing` comes where the replica could do nothing after a beginning of its history with so many entries; where that turns out to be the
/// whole of it, the replica has nothing of this kind to do. `Lost` comes where memory was refused, now or before.
pub fn advance<P: Party>(turn: &Turn<Acting<P>>, pass: &mut Pass<Acting<P>>, mover: Mover) -> Did
    requires pass { IsPartyPass P.made turn.now pass.old }
    requires own { mover ≢ movers.Mover.Emit }
    ensures pass { IsPartyPass P.made turn.now pass.new }
    ensures numbers { numbers pass.new ≡ numbers pass.old }
    ensures kinds { KeepsKind Kind.Doing (view pass.old) (view pass.new) }
    ensures does { Does (P.made (first_machine turn.now).first) mover result (view pass.old) (view pass.new) }
{
    match turn.act(pass, act_of(mover)) {
        Err(Busy { call, seat: _ }) => {
            drop(call);
            Did::Busy
        }
        Ok(answer) => did_of(answer),
    }
}
