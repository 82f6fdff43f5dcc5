//! One step of a core, and its entry in the journal.
ghost use Rattle.std.specs.Prelude.{◌≡◌, ◌<◌, ◌++◌, ◌∷◌, [], IfOk, OnOk, cond, vec_len, vec_capacity};
ghost use Rattle.fab_machine.specs.Step.{makes_entry};
ghost use Rattle.replica_log.specs.Entering.{has_entry};
ghost use Rattle.replica_core.specs.Cores.{IsFor, IsSame, with_state, stepped};

use fab_base::{Answer, NoMemory};
use replica_core::{Core, Event};
use run_words::Entry;
use std::marker::Model;

/// Whether an answer makes an entry in the journal.
fn makes_entry(answer: &Answer) -> bool
    ensures { result ≡ makes_entry answer.now }
{
    matches!(
        answer,
        Answer::Heard(_)
            | Answer::Proposed { .. }
            | Answer::Sent(_)
            | Answer::Executed { .. }
            | Answer::Voted { .. }
            | Answer::Moved { .. }
            | Answer::Asked { .. }
            | Answer::Missed { .. }
    )
}

/// Whether there is an answer that makes an entry.
fn has_entry(answer: &Result<Answer, NoMemory>) -> bool
    ensures { result ≡ has_entry answer.now }
{
    match answer {
        Ok(answer) => makes_entry(answer),
        Err(_) => false,
    }
}

/// An entry that may be made. A contract sees the entry.
#[derive(Drop)]
pub(crate) struct NewEntry {
    entry: Entry,
}

impl Model for NewEntry {
    ghost use Rattle.run_words.specs.declared.logs.Entry as entries;

    ghost Value = { entries.Entry };

    ghost view = { λ new. new.entry };
}

impl NewEntry {
    /// The entry.
    pub(crate) fn new(entry: Entry) -> NewEntry
        ensures { result ≡ entry }
    {
        NewEntry { entry }
    }

    /// Adds it to the journal. Takes no memory: there is room for it.
    pub(crate) fn enter(self, journal: &mut Vec<Entry>)
        requires { vec_len journal.old < vec_capacity journal.old }
        ensures { journal.new.items ≡ journal.old.items ++ self ∷ [] }
    {
        journal.push(self.entry).unwrap();
    }
}

/// Adds an entry, where there is one. Takes no memory: there is room for it.
fn enter_where(made: bool, entry: NewEntry, journal: &mut Vec<Entry>)
    requires { vec_len journal.old < vec_capacity journal.old }
    ensures { journal.new.items ≡ cond made (journal.old.items ++ entry ∷ []) journal.old.items }
{
    if made {
        entry.enter(journal);
    } else {
        drop(entry);
    }
}

/// One step of the core, and its entry where the answer makes one. It takes no memory for the entry: there is room for it. After a refusal
/// of memory the journal is as it was, and of the core's state nothing is said.
pub(crate) fn enter(
    core: &mut Core,
    journal: &mut Vec<Entry>,
    event: Event,
    entry: NewEntry,
) -> Result<Answer, NoMemory>
    requires event { IsFor core.old.roster event }
    requires room { vec_len journal.old < vec_capacity journal.old }
    ensures answer { IfOk result (λ answer. answer ≡ (stepped core.old event).answer) }
    ensures core { OnOk result (core.new ≡ with_state core.old (stepped core.old event).state) }
    ensures journal { journal.new.items ≡ cond (has_entry result) (journal.old.items ++ entry ∷ []) journal.old.items }
    ensures same { IsSame core.old core.new }
{
    let answer = core.step(event);
    enter_where(has_entry(&answer), entry, journal);
    answer
}
