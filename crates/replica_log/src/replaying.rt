//! The replay of a journal.
ghost use Rattle.std.specs.Prelude.{◌≡◌, false, IfOk, OnOk, IsTrue};
ghost use Rattle.fab_base.specs.Roster.{is_replica};
ghost use Rattle.fab_rules.specs.Shape.{IsShaped};
ghost use Rattle.fab_machine.specs.State.{fresh};
ghost use Rattle.fab_machine.specs.Step.{step};
ghost use Rattle.fab_machine.specs.Diaries.{MayCome};
ghost use Rattle.fab_rules.specs.Statements.{signature_of};
ghost use Rattle.replica_core.specs.Cores as cores;
ghost use Rattle.run_words.specs.Journal as journals;
ghost use Rattle.run_words.specs.Journal.{Maker, state, IsMade, AreSound};
ghost use Rattle.replica_log.specs.Replayed.{IsReplayable, core_after};

use crate::making::fresh_core;
use bft_msg::{Shaped, shape, signature};
use fab_base::{Bytes, Duplicate, Members, Message, NoMemory, ReplicaId};
use replica_core::{Core, Event};
use run_words::{Entry, Trace};
use std::alloc::Global;

/// A copy of the signature that a message bears: empty where it is of a kind that nobody signs.
fn signature_of(alloc: Global, message: &Message) -> Result<Bytes, NoMemory>
    ensures { IfOk result (λ bytes. bytes ≡ signature_of message.now) }
{
    match signature(message) {
        Some(signature) => signature.copy(),
        None => Ok(Bytes::new(alloc)),
    }
}

/// A copy of a message that was heard, shaped for the members as it was when it was heard.
fn shaped(members: &Members, message: &Message) -> Result<Shaped, NoMemory>
    requires { IsShaped members.now message.now }
    ensures { IfOk result (λ shaped. shaped ≡ record { members = members.now; message = message.now }) }
{
    Ok(shape(members.share()?, message.duplicate()?).unwrap())
}

/// The event of an entry.
fn event(alloc: Global, members: &Members, entry: &Entry) -> Result<Event, NoMemory>
    requires { MayCome members.now (journals.event_of entry.now) }
    ensures members { IfOk result (λ event. cores.IsFor members.now event) }
    ensures is { IfOk result (λ event. cores.event_of event ≡ journals.event_of entry.now) }
{
    match entry {
        Entry::Heard(_, message) => Ok(Event::Hear(shaped(members, message)?)),
        Entry::Proposed => Ok(Event::Batch),
        Entry::Nudged => Ok(Event::Nudge),
        Entry::Sent(item) => Ok(Event::Emit {
            sig: signature_of(alloc, &item.message)?,
        }),
        Entry::Executed => Ok(Event::Execute),
        Entry::Marked => Ok(Event::Checkpoint),
        Entry::TimedOut => Ok(Event::Timeout),
    }
}

/// Goes on by an entry of a journal. After a refusal of memory nothing is said of the replica's state.
fn redo(alloc: Global, members: &Members, replica: &mut Core, entry: &Entry) -> Result<(), NoMemory>
    requires members { replica.old.roster ≡ members.now }
    requires comes { MayCome members.now (journals.event_of entry.now) }
    ensures { OnOk result (replica.new ≡ cores.with_state replica.old (step replica.old.roster replica.old.me replica.old.state (journals.event_of entry.now)).state) }
{
    let event = event(alloc, members, entry)?;
    drop(replica.step(event)?);
    Ok(())
}

/// Goes on by the entries of a journal, in order, from the empty state. After a refusal of memory nothing is said of the replica's state.
fn redo_all(
    alloc: Global,
    members: &Members,
    replica: &mut Core,
    journal: &[Entry],
) -> Result<(), NoMemory>
    requires empty { replica.old ≡ record { roster = members.now; me = replica.old.me; state = fresh members.now replica.old.me; shut = false } }
    requires sound { (m : Maker) × (m.roster ≡ members.now) × AreSound m journal.now }
    ensures { OnOk result ((m : Maker) → m.roster ≡ members.now → m.id ≡ replica.old.me
        → replica.new ≡ record { roster = members.now; me = replica.old.me; state = state m journal.now; shut = false }) }
{
    for entry in journal {
        redo(alloc, members, replica, entry)?;
    }
    Ok(())
}

/// The core of a replica after the entries of a journal: what its machine is after the journal's events, in order, from the empty state.
/// The journal is one that the replica's machine makes, and each message that it heard is sound, for whatever else the replica was made
/// with (its keys). It fails only where memory is refused.
pub fn replay(
    alloc: Global,
    members: Members,
    me: ReplicaId,
    journal: &[Entry],
) -> Result<Core, NoMemory>
    requires member { IsTrue (is_replica members me) }
    requires kept { (m : Maker) × (m.roster ≡ members) × (m.id ≡ me) × IsMade m journal.now × AreSound m journal.now }
    ensures { IfOk result (λ core. (m : Maker) → m.roster ≡ members → m.id ≡ me
        → core ≡ record { roster = members; me = me; state = state m journal.now; shut = false }) }
{
    let mut replica = fresh_core(alloc, &members, me)?;
    match redo_all(alloc, &members, &mut replica, journal) {
        Ok(()) => Ok(replica),
        Err(NoMemory) => {
            drop(replica);
            Err(NoMemory)
        }
    }
}

/// The core of the replica that left this trace, as it stood when it did: its journal is replayed. The trace is one that a member left
/// whose machine makes the journal. It fails only where memory is refused.
pub fn replayed(alloc: Global, members: &Members, trace: &Trace) -> Result<Core, NoMemory>
    requires { IsReplayable members.now trace.now }
    ensures { IfOk result (λ core. core ≡ core_after members.now trace.now) }
{
    replay(alloc, members.share()?, trace.id, trace.journal.as_slice())
}
