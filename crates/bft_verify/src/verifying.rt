//! The check of bytes.
ghost use Rattle.std.specs.Prelude.{◌≡◌, IfOk, IsTrue};
ghost use Rattle.fab_base.specs.declared.messages.Message.{Message};
ghost use Rattle.fab_rules.specs.Format.{fits};
ghost use Rattle.fab_rules.specs.Shape.{numbered};
ghost use Rattle.fab_rules.specs.Spelling.{spelling_of};
ghost use Rattle.fab_rules.specs.Statements.{parts_of};
ghost use Rattle.bft_msg.specs.Passing.{Clears};
ghost use Rattle.msg_read.specs.Reading.{reading_of};
ghost use Rattle.bft_verify.specs.Answers.{Answers, IsFree, judged_as_read};
ghost use Rattle.bft_verify.specs.Sound.{IsSound, judged, signature_refusals};

use crate::refusals::Refusal;
use crate::ring::Keyring;
use crate::signatures::Signatures;
use crate::verified::Verified;
use bft_msg::{decode, judge_parts, shape};
use fab_base::{Members, Message};
use std::alloc::Global;

/// Looks at the signatures of a message that has a spelling.
fn look(alloc: Global, ring: &Keyring, message: &Message) -> Result<(), Refusal>
    requires { IsTrue (fits message.now) }
    ensures { Clears IsFree (numbered (signature_refusals ring.now) 0 (parts_of message.now)) result }
{
    judge_parts(alloc, &Signatures { ring }, message)
}

/// Looks at a message that has a spelling: its shape, and then its signatures.
fn admit(
    alloc: Global,
    members: &Members,
    ring: &Keyring,
    message: Message,
) -> Result<Verified, Refusal>
    requires { IsTrue (fits message) }
    ensures whole { IfOk result (λ v. v ≡ record { members = members.now; ring = ring.now; message = message }) }
    ensures answer { Answers (λ v. v.message) result (judged members.now ring.now message) }
{
    let members = members.share()?;
    let shaped = match shape(members, message) {
        Ok(shaped) => shaped,
        Err((misfit, _message)) => return Err(Refusal::from(misfit)),
    };
    look(alloc, ring, shaped.message())?;
    Ok(Verified::new(shaped, ring.share()?))
}

/// Looks at bytes from anybody. It is `Ok` exactly where they spell a message that is sound for these members and this keyring: it is
/// shaped, and each part of it that somebody signs bears a valid signature (RFC 8554) of its content under its signer's key. Else the
/// first refusal is answered: the first fault of the spelling, or the first misfit, or the first part, in their order, whose
/// signature isn't valid; want of memory may come in place of any answer.
///
/// The bytes are decoded once, each part's content is written once, and its signature is checked once.
pub fn verify(
    alloc: Global,
    members: &Members,
    ring: &Keyring,
    bytes: &[u8],
) -> Result<Verified, Refusal>
    // What is admitted is sound, and the bytes spell it.
    ensures sound { IfOk result (λ v. (v.members ≡ members.now) × (v.ring ≡ ring.now) × IsSound members.now ring.now v.message × (bytes.now ≡ spelling_of v.message)) }
    // Bytes that spell a message are admitted where it is sound, and else get its first refusal.
    ensures spelled { (m : Message) → IsTrue (fits m) → bytes.now ≡ spelling_of m → Answers (λ v. v.message) result (judged members.now ring.now m) }
    // Which answer it is, of any bytes.
    ensures exact { Answers (λ v. v.message) result (judged_as_read members.now ring.now (reading_of bytes.now)) }
{
    let message = decode(alloc, bytes)?;
    admit(alloc, members, ring, message)
}
