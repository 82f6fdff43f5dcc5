//! Hear: a message comes in.
ghost use Rattle.std.specs.Prelude.{◌≡◌, ◌<◌, IfOk, OnOk, OnErr, cond, vec_len, vec_capacity};
ghost use Rattle.std.specs.Result.{is_ok};
ghost use Rattle.fab_machine.specs.Step as machine;
ghost use Rattle.run_words.specs.Journal.{tick, tick_by};
ghost use Rattle.run_words.specs.Acts.{answer_to};
ghost use Rattle.run_words.specs.declared.logs.Entry as entries;
ghost use Rattle.replica_log.specs.Keeping.{maker_of, Keeps, IsLive, Stays, Enters, IsHearing};

use crate::entering::{NewEntry, enter};
use crate::keepers::Keeper;
use bft_verify::Verified;
use fab_base::{Answer, Duplicate, NoMemory};
use lms_tree::Signer;
use parcel_post::ticked;
use replica_core::Event;
use run_words::{Entry, Origin};

/// What a hearing brings: the clock after it, and its entry.
#[derive(Drop)]
struct Hearing {
    clock: u64,
    entry: NewEntry,
}

/// All memory for a hearing: its entry, and room for that in the journal.
fn prepared(
    clock: u64,
    journal: &mut Vec<Entry>,
    origin: Origin,
    heard: &Verified,
) -> Result<Hearing, NoMemory>
    ensures clock { IfOk result (λ hearing. hearing.clock ≡ tick_by clock origin) }
    ensures entry { IfOk result (λ hearing. hearing.entry ≡ entries.Entry.Heard origin heard.now.message) }
    ensures room { OnOk result (vec_len journal.new < vec_capacity journal.new) }
    ensures items { journal.new.items ≡ journal.old.items }
{
    journal.reserve(1)?;
    let clock = ticked(clock, origin)?;
    let message = heard.message().duplicate()?;
    let entry = NewEntry::new(Entry::Heard(origin, message));
    Ok(Hearing { clock, entry })
}

/// The clock after a step: the new one, where the step was made.
fn clock_after(answer: &Result<Answer, NoMemory>, before: u64, after: u64) -> u64
    ensures { result ≡ cond (is_ok answer.now) after before }
{
    match answer {
        Ok(_) => after,
        Err(_) => before,
    }
}

impl<S: Signer + Drop> Keeper<S> {
    /// Hears a message, for which there is room.
    fn take(&mut self, hearing: Hearing, heard: Verified) -> Result<Answer, NoMemory>
        requires kept { Keeps S.limit S.made S.gives self.old }
        requires live { IsLive S.limit S.gives self.old }
        requires members { heard.members ≡ self.old.members }
        requires ring { heard.ring ≡ self.old.ring }
        requires entry { IsHearing hearing.entry heard.message }
        requires clock { hearing.clock ≡ tick self.old.clock hearing.entry }
        requires room { vec_len self.old.journal < vec_capacity self.old.journal }
        ensures answer { IfOk result (λ answer. answer ≡ answer_to (maker_of S.limit S.gives self.old) self.old.journal.items (machine.Event.Hear heard.message)) }
        ensures enters { OnOk result (Enters S.limit S.made S.gives self.old hearing.entry self.new) }
        ensures stays { OnErr result (Stays S.limit S.made S.gives self.old self.new) }
        ensures signer { self.new.signer ≡ self.old.signer }
    {
        let event = Event::Hear(heard.into_shaped());
        let answer = enter(&mut self.core, &mut self.journal, event, hearing.entry);
        self.clock = clock_after(&answer, self.clock, hearing.clock);
        answer
    }

    /// Hears a message, which makes an entry. After a refusal of memory the journal is as it was, and of the core nothing is said.
    pub(crate) fn hear(&mut self, origin: Origin, heard: Verified) -> Result<Answer, NoMemory>
        requires kept { Keeps S.limit S.made S.gives self.old }
        requires live { IsLive S.limit S.gives self.old }
        requires members { heard.members ≡ self.old.members }
        requires ring { heard.ring ≡ self.old.ring }
        ensures answer { IfOk result (λ answer. answer ≡ answer_to (maker_of S.limit S.gives self.old) self.old.journal.items (machine.Event.Hear heard.message)) }
        ensures enters { OnOk result (Enters S.limit S.made S.gives self.old (entries.Entry.Heard origin heard.message) self.new) }
        ensures stays { OnErr result (Stays S.limit S.made S.gives self.old self.new) }
        ensures signer { self.new.signer ≡ self.old.signer }
    {
        match prepared(self.clock, &mut self.journal, origin, &heard) {
            Ok(hearing) => self.take(hearing, heard),
            Err(NoMemory) => {
                drop(heard);
                Err(NoMemory)
            }
        }
    }
}
