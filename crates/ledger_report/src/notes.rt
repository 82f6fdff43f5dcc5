//! What correct replicas told of blocks.
ghost use Rattle.std.specs.Prelude.{◌≡◌, map, IfOk, IsTrue};
ghost use Rattle.std.specs.Option.{option_copied};
ghost use Rattle.std.specs.List.{list_any};
ghost use Rattle.std.specs.Cmp.Lexicographic.{pointwise};
ghost use Rattle.fab_rules.specs.Digests.{batch_digest};
ghost use Rattle.fab_rules.specs.Format.{batch_fits};
ghost use Rattle.fab_rules.specs.Ledger.{lines_with};
ghost use Rattle.run_worlds.specs.Worlds.{is_correct_one, correct_of};
ghost use Rattle.ledger_report.specs.Report.{same_outcome, same_line, is_note_of};
ghost use Rattle.ledger_report.specs.Telling.{note_in, note_sent, notes_in, telling_of, has_told, told_by};

use fab_base::{Hash32, Message, NoMemory, Note, NoteLine, Outcome, Outcomes, Request};
use fab_rules::Block;
use msg_spell::batch_digest;
use run_words::{Entry, Trace};
use std::alloc::Global;
use std::marker::Model;

/// The cluster of a replica, and the notes that it sent, in order.
#[derive(Drop)]
pub(crate) struct Told<'a> {
    cluster: u8,
    notes: Vec<&'a Note>,
}

impl<'a> Model for Told<'a> {
    ghost use Rattle.std.specs.Prelude.{map};
    ghost use Rattle.ledger_report.specs.Telling.{Telling};

    ghost Value = { Telling };

    ghost view = { λ t. record { cluster = t.cluster; notes = map (λ n. n.now) t.notes.items } };
}

/// The note that a message is.
fn note_in(message: &Message) -> Option<&Note>
    ensures { option_copied result ≡ note_in message.now }
{
    match message {
        Message::ReplyNote(note) => Some(note),
        _ => None,
    }
}

/// The note that an entry sends.
fn note_sent(entry: &Entry) -> Option<&Note>
    ensures { option_copied result ≡ note_sent entry.now }
{
    match entry {
        Entry::Sent(item) => note_in(&item.message),
        _ => None,
    }
}

/// The notes that a journal sends, in order.
fn notes_in(alloc: Global, journal: &[Entry]) -> Result<Vec<&Note>, NoMemory>
    ensures { IfOk result (λ notes. map (λ n. n.now) notes.items ≡ notes_in journal.now) }
{
    let mut notes = Vec::new(alloc);
    for entry in journal {
        if let Some(note) = note_sent(entry) {
            notes.push(note)?;
        }
    }
    Ok(notes)
}

/// What a replica told.
fn told_in(alloc: Global, trace: &Trace) -> Result<Told<'_>, NoMemory>
    ensures { IfOk result (λ told. told ≡ telling_of trace.now) }
{
    let notes = notes_in(alloc, trace.journal.as_slice())?;
    Ok(Told {
        cluster: trace.id.cluster,
        notes,
    })
}

/// Whether a trace is of a correct replica: it bears no fault.
fn is_correct(trace: &Trace) -> bool
    ensures { result ≡ is_correct_one trace.now }
{
    trace.fault.is_none()
}

/// What each correct replica told.
pub(crate) fn told_by_all(alloc: Global, traces: &[Trace]) -> Result<Vec<Told<'_>>, NoMemory>
    ensures { IfOk result (λ all. all.items ≡ map telling_of (correct_of traces.now)) }
{
    let mut all = Vec::with_capacity(alloc, traces.len())?;
    for trace in traces {
        if is_correct(trace) {
            all.push(told_in(alloc, trace)?)?;
        }
    }
    Ok(all)
}

/// Whether two outcomes are equal.
fn same_outcome(a: &Outcome, b: &Outcome) -> bool
    ensures { result ≡ same_outcome a.now b.now }
{
    a == b
}

/// Whether a line says what a request came to.
fn is_line_of(line: &NoteLine, request: &Request, outcome: &Outcome) -> bool
    ensures { result ≡ same_line line.now (record { client = request.now.client; stamp = request.now.stamp; outcome = outcome.now }) }
{
    line.client == request.client
        && line.stamp == request.stamp
        && same_outcome(&line.outcome, outcome)
}

/// Whether the lines say what the requests came to, each in its turn.
fn are_lines_of(lines: &[NoteLine], requests: &[Request], outcomes: &[Outcome]) -> bool
    ensures { result ≡ pointwise same_line lines.now (lines_with requests.now outcomes.now) }
{
    let [request, requests @ ..] = requests else {
        return lines.is_empty();
    };
    let [outcome, outcomes @ ..] = outcomes else {
        return lines.is_empty();
    };
    let [line, lines @ ..] = lines else {
        return false;
    };
    is_line_of(line, request, outcome) && are_lines_of(lines, requests, outcomes)
}

/// Whether a note tells this of a block: its round, the digest of its batch, and what its requests came to.
fn is_note_of(note: &Note, block: &Block, digest: &Hash32, outcomes: &Outcomes) -> bool
    requires { digest.now ≡ batch_digest block.now.batch }
    ensures { result ≡ is_note_of (record { block = block.now; outcomes = outcomes.now }) note.now }
{
    note.round == block.round
        && note.digest == *digest
        && are_lines_of(
            note.lines.as_slice(),
            block.batch.as_slice(),
            outcomes.as_slice(),
        )
}

/// Whether one of the notes tells this of a block.
fn any_is_note_of(notes: &[&Note], block: &Block, digest: &Hash32, outcomes: &Outcomes) -> bool
    requires { digest.now ≡ batch_digest block.now.batch }
    ensures { result ≡ list_any (λ n. is_note_of (record { block = block.now; outcomes = outcomes.now }) n.now) notes.now }
{
    for note in notes {
        let note: &Note = note;
        if is_note_of(note, block, digest, outcomes) {
            return true;
        }
    }
    false
}

/// Whether a replica is of the block's cluster and told this of it.
#[tactic(auto, using(crate::proofs::Tellings::any_map))]
fn has_told(told: &Told, block: &Block, digest: &Hash32, outcomes: &Outcomes) -> bool
    requires { digest.now ≡ batch_digest block.now.batch }
    ensures { result ≡ has_told (record { block = block.now; outcomes = outcomes.now }) told.now }
{
    told.cluster == block.cluster && any_is_note_of(told.notes.as_slice(), block, digest, outcomes)
}

/// How many of these, of the block's cluster, told this of it.
pub(crate) fn told_by(all: &[Told], block: &Block, outcomes: &Outcomes) -> u64
    requires { IsTrue (batch_fits block.now.batch) }
    ensures { result ≡ told_by all.now (record { block = block.now; outcomes = outcomes.now }) }
{
    let digest = batch_digest(&block.batch);
    let mut count = 0;
    for told in all {
        if has_told(told, block, &digest, outcomes) {
            count += 1;
        }
    }
    count
}
