//! Whole messages: the number of the format, the body, and the seal of a signed kind.
ghost use Rattle.std.specs.Prelude.{◌≡◌, ◌∷◌, IsTrue, IfOk, OnOk, length, min};
ghost use Rattle.std.specs.Option.{is_some};
ghost use Rattle.fab_rules.specs.Spelling.{body_of, seal_of, content_of, spelling_of};
ghost use Rattle.fab_rules.specs.Format.{fields_fit, fits};
ghost use Rattle.fab_rules.specs.Statements.{signer_of};
ghost use Rattle.msg_spell.specs.Pieces.{Gains};

use crate::certificates::{put_share, share_fits};
use crate::changes::{new_view_fits, put_new_view_body, put_view_change_body};
use crate::fields::{put_signature, put_u8};
use crate::notes::{note_fits, put_note_body};
use crate::pleas::{ask_fits, plea_fits, put_ask, put_plea_body};
use crate::requests::{proposal_fits, put_proposal_body, put_request_body};
use crate::spelled::Fits;
use crate::tags::{COMMIT, DRVC, FORMAT, PREPARE, RVC};
use crate::votes::{put_checkpoint_body, put_vote_body};
use crate::writers::{Length, Writer};
use fab_base::{Bytes, LONGEST_MESSAGE, Message, NoMemory};
use std::alloc::Global;

/// Writes what stands between the number of the format and the signature.
fn put_body<W: Writer>(out: &mut W, message: &Message) -> Result<(), W::Fault>
    requires { IsTrue (fields_fit message.now) }
    ensures { OnOk result (Gains W.holds out.old out.new (body_of message.now)) }
{
    match message {
        Message::Request(request) => put_request_body(out, request),
        Message::PrePrepare(proposal) => put_proposal_body(out, proposal),
        Message::Prepare(vote) => put_vote_body(out, PREPARE, vote),
        Message::Commit(vote) => put_vote_body(out, COMMIT, vote),
        Message::Checkpoint(vote) => put_checkpoint_body(out, vote),
        Message::ViewChange(change) => put_view_change_body(out, change),
        Message::NewView(new_view) => put_new_view_body(out, new_view),
        Message::Drvc(plea) => put_plea_body(out, DRVC, plea),
        Message::Rvc(plea) => put_plea_body(out, RVC, plea),
        Message::ReplyNote(note) => put_note_body(out, note),
        Message::Share(share) => put_share(out, share),
        Message::Fetch(ask) => put_ask(out, ask),
    }
}

/// Writes the signature, where the kind has one.
fn put_seal<W: Writer>(out: &mut W, message: &Message) -> Result<(), W::Fault>
    requires { IsTrue (fields_fit message.now) }
    ensures { OnOk result (Gains W.holds out.old out.new (seal_of message.now)) }
{
    match message {
        Message::Request(request) => put_signature(out, &request.sig),
        Message::PrePrepare(proposal) => put_signature(out, &proposal.sig),
        Message::Prepare(vote) => put_signature(out, &vote.sig),
        Message::Commit(vote) => put_signature(out, &vote.sig),
        Message::Checkpoint(vote) => put_signature(out, &vote.sig),
        Message::ViewChange(change) => put_signature(out, &change.sig),
        Message::NewView(new_view) => put_signature(out, &new_view.sig),
        Message::Drvc(plea) => put_signature(out, &plea.sig),
        Message::Rvc(plea) => put_signature(out, &plea.sig),
        Message::ReplyNote(note) => put_signature(out, &note.sig),
        Message::Share(_) => Ok(()),
        Message::Fetch(_) => Ok(()),
    }
}

/// Writes what is signed of a message.
fn put_content<W: Writer>(out: &mut W, message: &Message) -> Result<(), W::Fault>
    requires { IsTrue (fields_fit message.now) }
    ensures { OnOk result (Gains W.holds out.old out.new (content_of message.now)) }
{
    put_u8(out, FORMAT)?;
    put_body(out, message)?;
    Ok(())
}

/// Writes a message.
fn put_message<W: Writer>(out: &mut W, message: &Message) -> Result<(), W::Fault>
    requires { IsTrue (fields_fit message.now) }
    ensures { OnOk result (Gains W.holds out.old out.new (spelling_of message.now)) }
{
    put_u8(out, FORMAT)?;
    put_body(out, message)?;
    put_seal(out, message)?;
    Ok(())
}

/// The number of bytes of a message's spelling, or the last value of a `usize` where there are more.
fn spelled_length(message: &Message) -> usize
    requires { IsTrue (fields_fit message.now) }
    ensures { result ≡ min (length (spelling_of message.now)) usize.MAX }
{
    let mut length = Length { bytes: 0 };
    match put_message(&mut length, message) {
        Ok(()) => length.bytes,
    }
}

/// Whether every field is within its range, count or length, and lists rise.
fn fields_fit(message: &Message) -> bool
    ensures { result ≡ fields_fit message.now }
{
    match message {
        Message::Request(request) => request.fits(),
        Message::PrePrepare(proposal) => proposal_fits(proposal),
        Message::Prepare(vote) => vote.fits(),
        Message::Commit(vote) => vote.fits(),
        Message::Checkpoint(vote) => vote.fits(),
        Message::ViewChange(change) => change.fits(),
        Message::NewView(new_view) => new_view_fits(new_view),
        Message::Drvc(plea) => plea_fits(plea),
        Message::Rvc(plea) => plea_fits(plea),
        Message::ReplyNote(note) => note_fits(note),
        Message::Share(share) => share_fits(share),
        Message::Fetch(ask) => ask_fits(ask),
    }
}

/// Whether a message has a spelling: each of its lists, keys, values and signatures is within its greatest count or length, the signers
/// of each list and the slots of prepared certificates rise, and the whole is at most `LONGEST_MESSAGE` bytes (ours). Takes no memory.
pub fn fits(message: &Message) -> bool
    ensures { result ≡ fits message.now }
{
    fields_fit(message) && spelled_length(message) <= LONGEST_MESSAGE
}

/// The spelling of a message, which has one. It fails only where memory is refused.
pub fn encode(alloc: Global, message: &Message) -> Result<Bytes, NoMemory>
    requires { IsTrue (fits message.now) }
    ensures { IfOk result (λ bytes. bytes ≡ spelling_of message.now) }
{
    let mut out = Vec::with_capacity(alloc, spelled_length(message))?;
    put_message(&mut out, message)?;
    Ok(Bytes::from_vec(out))
}

/// What the signer of a message signs: the number of the format, and everything of the spelling in front of the signature. The message
/// has a spelling, and is of a kind that somebody signs. It fails only where memory is refused.
pub fn content(alloc: Global, message: &Message) -> Result<Bytes, NoMemory>
    requires fits { IsTrue (fits message.now) }
    requires signed { IsTrue (is_some (signer_of message.now)) }
    ensures { IfOk result (λ bytes. bytes ≡ content_of message.now) }
{
    let mut out = Vec::with_capacity(alloc, spelled_length(message))?;
    put_content(&mut out, message)?;
    Ok(Bytes::from_vec(out))
}
