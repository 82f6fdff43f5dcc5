//! What nobody who is correct can have made.
ghost use Rattle.std.specs.Prelude.{◌≡◌, [], IfOk, IsTrue};
ghost use Rattle.std.specs.List.{list_all};
ghost use Rattle.fab_rules.specs.Format.{fits};
ghost use Rattle.run_worlds.specs.Sights.{after_message, after_entries, after_traces, first_evidence};
ghost use Rattle.run_worlds.specs.Worlds.{correct_of};
ghost use Rattle.run_worlds.specs.Endings.{IsOfLogs};
ghost use Rattle.fabric_audit.specs.Journals.{entry_fits, journal_fits, after_entry};
ghost use Rattle.fabric_audit.specs.Meeting.{Finds, Meets};

use crate::asking::asked_contents;
use crate::correct::is_correct;
use crate::makers::Makers;
use crate::meetings::Meetings;
use crate::stops::Stop;
use fab_base::{Batch, Message, NoMemory, ReplicaId};
use run_words::{Entry, Evidence, Trace, Transcript};
use std::alloc::Global;

/// Hears a message at a place of a replica's journal: first its parts, then its batches.
fn hear<'a>(
    makers: &Makers,
    meetings: &mut Meetings<'a>,
    replica: ReplicaId,
    place: u64,
    message: &'a Message,
) -> Result<(), Stop>
    requires { IsTrue (fits message.now) }
    ensures { Meets meetings.old result meetings.new (λ met. after_message makers.now replica place met message.now) }
{
    match makers.first_forged(message)? {
        Some(signer) => Err(Stop::Found(Evidence::Forged {
            replica,
            place,
            signer,
        })),
        None => meetings.meet_all(message),
    }
}

/// Goes through one entry of a journal. Only what was heard can be evidence.
fn audit_entry<'a>(
    makers: &Makers,
    meetings: &mut Meetings<'a>,
    replica: ReplicaId,
    place: u64,
    entry: &'a Entry,
) -> Result<(), Stop>
    requires { IsTrue (entry_fits entry.now) }
    ensures { Meets meetings.old result meetings.new (λ met. after_entry makers.now replica place met entry.now) }
{
    match entry {
        Entry::Heard(_, message) => hear(makers, meetings, replica, place, message),
        _ => Ok(()),
    }
}

/// Goes through a replica's journal.
fn audit_journal<'a>(
    makers: &Makers,
    meetings: &mut Meetings<'a>,
    replica: ReplicaId,
    journal: &'a [Entry],
) -> Result<(), Stop>
    requires { IsTrue (list_all entry_fits journal.now) }
    ensures { Meets meetings.old result meetings.new (λ met. after_entries makers.now replica 0 met journal.now) }
{
    for place in 0..journal.len() {
        audit_entry(makers, meetings, replica, place as u64, &journal[place])?;
    }
    Ok(())
}

/// Goes through the journals of the correct replicas, in their order.
fn audit_journals<'a>(
    makers: &Makers,
    meetings: &mut Meetings<'a>,
    traces: &'a [Trace],
) -> Result<(), Stop>
    requires { IsTrue (list_all journal_fits traces.now) }
    ensures { Meets meetings.old result meetings.new (λ met. after_traces makers.now met (correct_of traces.now)) }
{
    for trace in traces {
        if is_correct(trace) {
            audit_journal(makers, meetings, trace.id, trace.journal.as_slice())?;
        }
    }
    Ok(())
}

/// Goes through a whole run. The null batch counts as met from the start.
fn audit_run(alloc: Global, makers: &Makers, null: &Batch) -> Result<(), Stop>
    requires fits { IsTrue (list_all journal_fits makers.now.traces) }
    requires null { null.now ≡ [] }
    ensures { Finds result (first_evidence makers.now) }
{
    let mut meetings = Meetings::new(alloc, null)?;
    audit_journals(makers, &mut meetings, makers.transcript().traces.as_slice())
}

/// The first evidence in a whole run, where there is any. It fails only where memory is refused.
fn evidence(alloc: Global, makers: &Makers) -> Result<Option<Evidence>, NoMemory>
    requires { IsTrue (list_all journal_fits makers.now.traces) }
    ensures { IfOk result (λ found. found ≡ first_evidence makers.now) }
{
    match audit_run(alloc, makers, &Batch::new(alloc)) {
        Ok(()) => Ok(None),
        Err(Stop::Found(evidence)) => Ok(Some(evidence)),
        Err(Stop::NoMemory) => Err(NoMemory),
    }
}

/// The first evidence against the premises of agreement, where there is any: a statement that a correct replica heard under the name of a
/// correct signer who never made it, or two batches that share a digest. The correct replicas are gone through by id, what each heard in
/// its order, and of each message first its parts, then its batches. Any transcript that logs may hold is judged, lawful or not. It fails
/// only where memory is refused.
pub fn audit(alloc: Global, transcript: &Transcript) -> Result<Option<Evidence>, NoMemory>
    requires { IsOfLogs transcript.now }
    ensures { IfOk result (λ found. found ≡ first_evidence transcript.now) }
{
    let asked = asked_contents(alloc, transcript.script.requests.as_slice())?;
    let makers = Makers::of(alloc, transcript, asked.as_slice())?;
    evidence(alloc, &makers)
}
