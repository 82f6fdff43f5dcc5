//! The lines of a report.
ghost use Rattle.std.specs.Prelude.{◌≡◌, ◌++◌, codes, decimal, length, IfOk, OnOk};
ghost use Rattle.ledger_report.specs.Text.{outcome_text, reply_line, reply_lines, entry_line, entry_lines, table_text};

use fab_base::{Bytes, NoMemory, Outcome, Reply, Request};
use itoa::Buffer;

/// Adds bytes.
pub(crate) fn push_bytes(text: &mut Vec<u8>, bytes: &[u8]) -> Result<(), NoMemory>
    ensures { OnOk result (text.new.items ≡ text.old.items ++ bytes.now) }
{
    text.extend_from_slice(bytes)?;
    Ok(())
}

/// Adds a number in decimal digits.
pub(crate) fn push_number(text: &mut Vec<u8>, number: u64) -> Result<(), NoMemory>
    ensures { OnOk result (text.new.items ≡ text.old.items ++ decimal number) }
{
    let mut buffer = Buffer::new();
    push_bytes(text, buffer.format(number).as_bytes())
}

/// Adds what a request came to.
fn push_outcome(text: &mut Vec<u8>, outcome: &Outcome) -> Result<(), NoMemory>
    ensures { OnOk result (text.new.items ≡ text.old.items ++ outcome_text outcome.now) }
{
    match outcome {
        Outcome::Done(Reply::Wrote) => push_bytes(text, b"wrote"),
        Outcome::Done(Reply::Found(value)) => {
            push_bytes(text, b"found ")?;
            push_bytes(text, value.as_slice())
        }
        Outcome::Done(Reply::Absent) => push_bytes(text, b"absent"),
        Outcome::Again => push_bytes(text, b"again"),
        Outcome::Early => push_bytes(text, b"early"),
    }
}

/// Adds the line of a reply.
fn push_reply(text: &mut Vec<u8>, request: &Request, outcome: &Outcome) -> Result<(), NoMemory>
    ensures { OnOk result (text.new.items ≡ text.old.items ++ reply_line request.now outcome.now) }
{
    push_bytes(text, b"reply ")?;
    push_number(text, request.client.number as u64)?;
    push_bytes(text, b" ")?;
    push_number(text, request.stamp as u64)?;
    push_bytes(text, b" ")?;
    push_outcome(text, outcome)?;
    push_bytes(text, b"\n")
}

/// Adds a line for each request, with what it came to.
pub fn push_replies(
    text: &mut Vec<u8>,
    requests: &[Request],
    outcomes: &[Outcome],
) -> Result<(), NoMemory>
    ensures { OnOk result (text.new.items ≡ text.old.items ++ reply_lines requests.now outcomes.now) }
{
    for (request, outcome) in requests.iter().zip(outcomes) {
        push_reply(text, request, outcome)?;
    }
    Ok(())
}

/// Adds the line of an entry of the table.
fn push_entry(text: &mut Vec<u8>, entry: &(Bytes, Bytes)) -> Result<(), NoMemory>
    ensures { OnOk result (text.new.items ≡ text.old.items ++ entry_line entry.now) }
{
    push_bytes(text, b"entry ")?;
    push_bytes(text, entry.0.as_slice())?;
    push_bytes(text, b" ")?;
    push_bytes(text, entry.1.as_slice())?;
    push_bytes(text, b"\n")
}

/// Adds a line for each entry of the table.
fn push_entries(text: &mut Vec<u8>, entries: &[(Bytes, Bytes)]) -> Result<(), NoMemory>
    ensures { OnOk result (text.new.items ≡ text.old.items ++ entry_lines entries.now) }
{
    for entry in entries {
        push_entry(text, entry)?;
    }
    Ok(())
}

/// Adds the lines of the table.
pub fn push_table(text: &mut Vec<u8>, entries: &[(Bytes, Bytes)]) -> Result<(), NoMemory>
    ensures { OnOk result (text.new.items ≡ text.old.items ++ table_text entries.now) }
{
    push_bytes(text, b"table ")?;
    push_number(text, entries.len() as u64)?;
    push_bytes(text, b"\n")?;
    push_entries(text, entries)
}

/// Adds the last line of a report in which all is done.
pub fn push_done(text: &mut Vec<u8>) -> Result<(), NoMemory>
    ensures { OnOk result (text.new.items ≡ text.old.items ++ codes "end done\n") }
{
    push_bytes(text, b"end done\n")
}
