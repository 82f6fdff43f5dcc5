//! Notes, with what requests came to.
ghost use Rattle.std.specs.Prelude.{◌≡◌, IsTrue, OnOk};
ghost use Rattle.fab_rules.specs.Spelling.{outcome_bytes, note_body};
ghost use Rattle.fab_rules.specs.Format.{outcome_fits, lines_fit, note_fits};
ghost use Rattle.msg_spell.specs.Pieces.{Gains};

use crate::fields::{
    bytes_fit, digest_fits, id_fits, put_replica, put_short, put_u8, put_u32, put_u64,
    signature_fits,
};
use crate::spelled::{Fits, Spelled, all_fit, put_counted};
use crate::tags::{ABSENT, AGAIN, EARLY, FOUND, REPLY_NOTE, WROTE};
use crate::writers::Writer;
use fab_base::{LONGEST_VALUE, MOST_REQUESTS, Note, NoteLine, NoteLines, Outcome, Reply};

/// Whether the value of an outcome, if it has one, isn't too long.
fn outcome_fits(outcome: &Outcome) -> bool
    ensures { result ≡ outcome_fits outcome.now }
{
    match outcome {
        Outcome::Done(Reply::Found(value)) => bytes_fit(value.as_slice(), LONGEST_VALUE),
        _ => true,
    }
}

/// Writes an outcome, with the value that was found.
fn put_outcome<W: Writer>(out: &mut W, outcome: &Outcome) -> Result<(), W::Fault>
    requires { IsTrue (outcome_fits outcome.now) }
    ensures { OnOk result (Gains W.holds out.old out.new (outcome_bytes outcome.now)) }
{
    match outcome {
        Outcome::Done(Reply::Wrote) => put_u8(out, WROTE),
        Outcome::Done(Reply::Found(value)) => {
            put_u8(out, FOUND)?;
            put_short(out, value)
        }
        Outcome::Done(Reply::Absent) => put_u8(out, ABSENT),
        Outcome::Again => put_u8(out, AGAIN),
        Outcome::Early => put_u8(out, EARLY),
    }
}

impl Fits for NoteLine {
    ghost use Rattle.fab_rules.specs.Format.{line_fits};

    ghost fits = { line_fits };

    fn fits(&self) -> bool {
        let _number = self.client.number;
        let _stamp = self.stamp;
        outcome_fits(&self.outcome)
    }
}

impl Spelled for NoteLine {
    ghost use Rattle.fab_rules.specs.Spelling.{line_bytes};

    ghost spelling = { line_bytes };

    fn put<W: Writer>(&self, out: &mut W) -> Result<(), W::Fault> {
        put_u8(out, self.client.number)?;
        put_u32(out, self.stamp)?;
        put_outcome(out, &self.outcome)?;
        Ok(())
    }
}

/// Whether there are at most so many lines as a note may have, each within the ranges and lengths.
fn lines_fit(lines: &NoteLines) -> bool
    ensures { result ≡ lines_fit lines.now }
{
    lines.len() <= MOST_REQUESTS as usize && all_fit(lines.as_slice())
}

/// Whether a note is within the ranges, counts and lengths.
pub fn note_fits(note: &Note) -> bool
    ensures { result ≡ note_fits note.now }
{
    let _round = note.round;
    id_fits(note.signer)
        && digest_fits(&note.digest)
        && lines_fit(&note.lines)
        && signature_fits(&note.sig)
}

/// Writes what is signed of a note, but for the format.
pub fn put_note_body<W: Writer>(out: &mut W, note: &Note) -> Result<(), W::Fault>
    requires { IsTrue (note_fits note.now) }
    ensures { OnOk result (Gains W.holds out.old out.new (note_body note.now)) }
{
    put_u8(out, REPLY_NOTE)?;
    put_replica(out, note.signer)?;
    put_u64(out, note.round)?;
    out.write(&note.digest.bytes)?;
    put_counted(out, &note.lines)?;
    Ok(())
}
