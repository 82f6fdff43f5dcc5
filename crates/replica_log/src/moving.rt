//! Batch, Nudge, Execute, Checkpoint and Timeout: what the core does of its own accord.
ghost use Rattle.std.specs.Prelude.{◌≡◌, IfOk, OnErr};
ghost use Rattle.fab_machine.specs.Step.{makes_entry};
ghost use Rattle.replica_core.specs.Cores.{event_of};
ghost use Rattle.run_words.specs.Acts.{answer_to};
ghost use Rattle.replica_log.specs.Keeping.{maker_of, Keeps, IsLive, Stays, Moves, IsMoving};

use crate::entering::{NewEntry, enter};
use crate::keepers::Keeper;
use fab_base::{Answer, NoMemory};
use lms_tree::Signer;
use replica_core::Event;

impl<S: Signer + Drop> Keeper<S> {
    /// One event of the core, with the entry that it makes, where it makes one. After a refusal of memory the journal is as it was, and of
    /// the core nothing is said.
    pub(crate) fn advance(&mut self, event: Event, entry: NewEntry) -> Result<Answer, NoMemory>
        requires kept { Keeps S.limit S.made S.gives self.old }
        requires live { IsLive S.limit S.gives self.old }
        requires moving { IsMoving event entry }
        ensures answer { IfOk result (λ answer. answer ≡ answer_to (maker_of S.limit S.gives self.old) self.old.journal.items (event_of event)) }
        ensures moves { IfOk result (λ answer. Moves S.limit S.made S.gives self.old entry (makes_entry answer) self.new) }
        ensures stays { OnErr result (Stays S.limit S.made S.gives self.old self.new) }
        ensures signer { self.new.signer ≡ self.old.signer }
    {
        if self.journal.reserve(1).is_err() {
            drop(event);
            drop(entry);
            return Err(NoMemory);
        }
        enter(&mut self.core, &mut self.journal, event, entry)
    }
}
