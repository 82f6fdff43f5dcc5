//! The lines of a script, each by its first words.
ghost use Rattle.std.specs.Prelude.{◌≡◌, codes, length, IfOk};
ghost use Rattle.std.specs.List.{list_all};
ghost use Rattle.fault_script.specs.Checks.{Leaves};
ghost use Rattle.fault_script.specs.Words.{words_of};
ghost use Rattle.fault_script.specs.Lines.{cluster_line, client_line, put_line, get_line, cut_line, swap_line, request_of_kind, request_line, timeout_line, line_of_kind, line_of_words, is_comment, is_printable, line};

use crate::drafts::Draft;
use crate::faults::{LineFault, Why};
use crate::fields::{key_of, number_within, one_number, value_of};
use crate::settings::MOST_TURNS;
use crate::words::{Words, same_word};
use fab_base::{MOST_MEMBERS, Op};

/// `cluster SIZE`
fn cluster_line(draft: &mut Draft, words: Words<'_>) -> Result<(), LineFault>
    ensures { Leaves result draft.new (cluster_line draft.old (words_of words.entry.rest.now)) }
{
    let size = one_number(1, MOST_MEMBERS as u64, words)?;
    draft.add_cluster(size as u8)
}

/// `client CLUSTER`
fn client_line(draft: &mut Draft, words: Words<'_>) -> Result<(), LineFault>
    ensures { Leaves result draft.new (client_line draft.old (words_of words.entry.rest.now)) }
{
    let home = words.one()?;
    let home = draft.declared_cluster(home)?;
    draft.add_client(home)
}

/// `request CLIENT put KEY VALUE`
fn put_line(draft: &mut Draft, client: &[u8], fields: Words<'_>) -> Result<(), LineFault>
    ensures { Leaves result draft.new (put_line draft.old client.now (words_of fields.entry.rest.now)) }
{
    let (key, value) = fields.two()?;
    let client = draft.declared_client(client)?;
    let key = key_of(key)?;
    let value = value_of(value)?;
    let op = Op::Put {
        key: draft.bytes(key)?,
        value: draft.bytes(value)?,
    };
    draft.add_request(client, op)
}

/// `request CLIENT get KEY`
fn get_line(draft: &mut Draft, client: &[u8], fields: Words<'_>) -> Result<(), LineFault>
    ensures { Leaves result draft.new (get_line draft.old client.now (words_of fields.entry.rest.now)) }
{
    let key = fields.one()?;
    let client = draft.declared_client(client)?;
    let key = key_of(key)?;
    let op = Op::Get {
        key: draft.bytes(key)?,
    };
    draft.add_request(client, op)
}

/// `request CLIENT cut KEY`
fn cut_line(draft: &mut Draft, client: &[u8], fields: Words<'_>) -> Result<(), LineFault>
    ensures { Leaves result draft.new (cut_line draft.old client.now (words_of fields.entry.rest.now)) }
{
    let key = fields.one()?;
    let client = draft.declared_client(client)?;
    let key = key_of(key)?;
    let op = Op::Cut {
        key: draft.bytes(key)?,
    };
    draft.add_request(client, op)
}

/// `request CLIENT swap KEY EXPECTED FRESH`
fn swap_line(draft: &mut Draft, client: &[u8], fields: Words<'_>) -> Result<(), LineFault>
    ensures { Leaves result draft.new (swap_line draft.old client.now (words_of fields.entry.rest.now)) }
{
    let (key, expected, fresh) = fields.three()?;
    let client = draft.declared_client(client)?;
    let key = key_of(key)?;
    let expected = value_of(expected)?;
    let fresh = value_of(fresh)?;
    let op = Op::Swap {
        key: draft.bytes(key)?,
        expected: draft.bytes(expected)?,
        fresh: draft.bytes(fresh)?,
    };
    draft.add_request(client, op)
}

/// The fields of a request, by its kind word.
fn request_of_kind(
    draft: &mut Draft,
    client: &[u8],
    kind: &[u8],
    fields: Words<'_>,
) -> Result<(), LineFault>
    ensures { Leaves result draft.new (request_of_kind draft.old client.now kind.now (words_of fields.entry.rest.now)) }
{
    match kind {
        b"put" => put_line(draft, client, fields),
        b"get" => get_line(draft, client, fields),
        b"cut" => cut_line(draft, client, fields),
        b"swap" => swap_line(draft, client, fields),
        _ => Err(LineFault::Bad(Why::BadWord)),
    }
}

/// `request CLIENT KIND ..`
fn request_line(draft: &mut Draft, mut words: Words<'_>) -> Result<(), LineFault>
    ensures { Leaves result draft.new (request_line draft.old (words_of words.entry.rest.now)) }
{
    let Some(client) = words.next() else {
        return Err(LineFault::Bad(Why::Missing));
    };
    let Some(kind) = words.next() else {
        return Err(LineFault::Bad(Why::Missing));
    };
    request_of_kind(draft, client, kind, words)
}

/// `timeout REPLICA ENTRIES`
fn timeout_line(draft: &mut Draft, words: Words<'_>) -> Result<(), LineFault>
    ensures { Leaves result draft.new (timeout_line draft.old (words_of words.entry.rest.now)) }
{
    let (replica, entries) = words.two()?;
    let replica = draft.declared_replica(replica)?;
    let entries = number_within(0, MOST_TURNS as u64, entries)?;
    draft.add_timeout(replica, entries as u32)
}

/// What follows the first word of a line.
fn line_of_kind(draft: &mut Draft, kind: &[u8], words: Words<'_>) -> Result<(), LineFault>
    ensures { Leaves result draft.new (line_of_kind draft.old kind.now (words_of words.entry.rest.now)) }
{
    if same_word(kind, b"cluster") {
        cluster_line(draft, words)
    } else if same_word(kind, b"client") {
        client_line(draft, words)
    } else if same_word(kind, b"request") {
        request_line(draft, words)
    } else if same_word(kind, b"timeout") {
        timeout_line(draft, words)
    } else {
        draft.set(kind, words)
    }
}

/// The words of a line.
fn line_of_words(draft: &mut Draft, mut words: Words<'_>) -> Result<(), LineFault>
    ensures { Leaves result draft.new (line_of_words draft.old (words_of words.entry.rest.now)) }
{
    match words.next() {
        Some(kind) => line_of_kind(draft, kind, words),
        None => Ok(()),
    }
}

/// Whether the line is a comment.
fn is_comment(text: &[u8]) -> bool
    ensures { result ≡ is_comment text.now }
{
    match text {
        [first, ..] => *first == b'#',
        [] => false,
    }
}

/// Whether the line holds only the bytes from a space to a tilde.
fn is_printable(text: &[u8]) -> bool
    ensures { result ≡ list_all is_printable text.now }
{
    text.iter().all(|b| *b >= b' ' && *b <= b'~')
}

/// One line.
pub(crate) fn line(draft: &mut Draft, text: &[u8]) -> Result<(), LineFault>
    ensures { Leaves result draft.new (line draft.old text.now) }
{
    if is_comment(text) {
        Ok(())
    } else if is_printable(text) {
        line_of_words(draft, Words { rest: text })
    } else {
        Err(LineFault::Bad(Why::BadWord))
    }
}
