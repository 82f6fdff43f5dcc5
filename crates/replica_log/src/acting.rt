//! One act of a keeper.
ghost use Rattle.std.specs.Prelude.{◌≡◌, IfOk, OnErr, IsTrue};
ghost use Rattle.std.specs.Result.{is_ok};
ghost use Rattle.run_words.specs.Acts.{IsFor};
ghost use Rattle.replica_log.specs.Acting.{told_by, told_anyway};
ghost use Rattle.replica_log.specs.Logs.{KeepsSigner};
ghost use Rattle.replica_log.specs.Keeping.{maker_of, Keeps, IsLive, Stays, HasActed, MayBeTold, IsEmit};

use crate::entering::NewEntry;
use crate::keepers::Keeper;
use fab_base::{Answer, NoMemory};
use lms_tree::Signer;
use replica_core::Event;
use run_words::{Act, Entry, Told};

/// What is told of an act of the core.
fn told(answer: Result<Answer, NoMemory>) -> Result<Told, NoMemory>
    ensures { result ≡ told_by answer }
{
    match answer {
        Ok(answer) => Ok(Told::Core(answer)),
        Err(NoMemory) => Err(NoMemory),
    }
}

/// What is told, refused or not.
pub(crate) fn told_anyway(told: Result<Told, NoMemory>) -> Told
    ensures { result ≡ told_anyway told }
{
    match told {
        Ok(told) => told,
        Err(NoMemory) => Told::NoMemory,
    }
}

impl<S: Signer + Drop> Keeper<S> {
    /// One act, which is answered by what is told of it. It fails where memory is refused for anything but Emit; then the journal is as it
    /// was, and of the core nothing is said.
    pub(crate) fn act(&mut self, act: Act) -> Result<Told, NoMemory>
        requires kept { Keeps S.limit S.made S.gives self.old }
        requires live { IsLive S.limit S.gives self.old }
        requires members { IsFor (maker_of S.limit S.gives self.old) act }
        ensures acted { IfOk result (λ told. HasActed S.limit S.made S.gives self.old act told self.new) }
        ensures may { IfOk result (λ told. MayBeTold act told) }
        ensures stays { OnErr result (Stays S.limit S.made S.gives self.old self.new) }
        ensures emits { IsEmit act → IsTrue (is_ok result) }
        ensures signer { KeepsSigner (told_anyway result) self.old.signer self.new.signer }
    {
        match act {
            Act::Hear(origin, heard) => told(self.hear(origin, heard)),
            Act::Batch => told(self.advance(Event::Batch, NewEntry::new(Entry::Proposed))),
            Act::Nudge => told(self.advance(Event::Nudge, NewEntry::new(Entry::Nudged))),
            Act::Execute => told(self.advance(Event::Execute, NewEntry::new(Entry::Executed))),
            Act::Checkpoint => told(self.advance(Event::Checkpoint, NewEntry::new(Entry::Marked))),
            Act::Timeout => told(self.advance(Event::Timeout, NewEntry::new(Entry::TimedOut))),
            Act::Emit => Ok(told_anyway(self.emit())),
        }
    }
}
