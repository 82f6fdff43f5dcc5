//! The answers to messages.
ghost use Rattle.std.specs.Prelude.{IsTrue};
ghost use Rattle.fab_rules.specs.Format.{fits};

use crate::fabric::Fabric;
use crate::unanswered::Unanswered;
use bft_msg::encode;
use bft_verify::{Refusal, verify};
use fab_base::Message;
use std::alloc::{AllocError, Global};

/// The answer to a line, which `back` makes one with the spelling. `Err` comes only where memory is refused.
pub(crate) fn answer(
    alloc: Global,
    fabric: &Fabric,
    back: bool,
    line: &str,
) -> Result<String, AllocError> {
    match answer_hex(alloc, fabric, back, line) {
        Ok(answer) => Ok(answer),
        Err(Unanswered::NoMemory) => Err(AllocError),
        Err(fault) => Ok(format!(in alloc; "{fault:?}")?),
    }
}

fn answer_hex(
    alloc: Global,
    fabric: &Fabric,
    back: bool,
    line: &str,
) -> Result<String, Unanswered> {
    let bytes = hex::decode(alloc, line)?;
    match verify(alloc, &fabric.members, &fabric.ring, bytes.as_slice()) {
        Ok(verified) => accepted(alloc, back, verified.message()),
        Err(Refusal::NoMemory) => Err(Unanswered::NoMemory),
        Err(refusal) => Ok(format!(in alloc; "{refusal:?}")?),
    }
}

/// The answer for a message that is accepted.
fn accepted(alloc: Global, back: bool, message: &Message) -> Result<String, Unanswered>
    requires { IsTrue (fits message.now) }
{
    let kind = kind_of(message);
    if back {
        let bytes = encode(alloc, message)?;
        let spelled = hex::encode(alloc, bytes.as_slice())?;
        Ok(format!(in alloc; "Ok {kind} {spelled}")?)
    } else {
        Ok(format!(in alloc; "Ok {kind}")?)
    }
}

/// The name of a message's kind.
fn kind_of(message: &Message) -> &'static str {
    match message {
        Message::Request(_) => "Request",
        Message::PrePrepare(_) => "PrePrepare",
        Message::Prepare(_) => "Prepare",
        Message::Commit(_) => "Commit",
        Message::Checkpoint(_) => "Checkpoint",
        Message::ViewChange(_) => "ViewChange",
        Message::NewView(_) => "NewView",
        Message::Drvc(_) => "Drvc",
        Message::Rvc(_) => "Rvc",
        Message::ReplyNote(_) => "ReplyNote",
        Message::Share(_) => "Share",
        Message::Fetch(_) => "Fetch",
    }
}
