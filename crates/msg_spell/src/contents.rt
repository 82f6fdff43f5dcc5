//! What is signed of the statements that stand inside messages (ours): the number of the format, and everything of the spelling in front
//! of the signature. And what stands between it and the signature.
ghost use Rattle.std.specs.Prelude.{◌≡◌, ◌<◌, ◌^◌, ◌++◌, IsTrue, OnOk};
ghost use Rattle.std.specs.Int.{w16, to_be_bytes};
ghost use Rattle.fab_base.specs.declared.messages.Message.{Message};
ghost use Rattle.fab_rules.specs.Format.{request_fits, view_change_fits};
ghost use Rattle.fab_rules.specs.Spelling.{content_of};

use crate::changes::put_view_change_body;
use crate::fields::{put_signature_len, put_u8};
use crate::requests::put_request_body;
use crate::tags::{COMMIT, FORMAT, PREPARE};
use crate::votes::{put_checkpoint_body, put_vote_body};
use fab_base::{NoMemory, Request, StableVote, ViewChange, Vote};

/// Appends the content that the signer of a request signs. It fails only where
/// memory is refused; some of it may stand there then.
pub fn put_request_content(out: &mut Vec<u8>, request: &Request) -> Result<(), NoMemory>
    requires { IsTrue (request_fits request.now) }
    ensures { OnOk result (out.new.items ≡ out.old.items ++ content_of (Message.Request request.now)) }
{
    put_u8(out, FORMAT)?;
    put_request_body(out, request)?;
    Ok(())
}

/// Appends the content that the signer of a Prepare signs. It fails only where
/// memory is refused; some of it may stand there then.
pub fn put_prepare_content(out: &mut Vec<u8>, vote: &Vote) -> Result<(), NoMemory>
    ensures { OnOk result (out.new.items ≡ out.old.items ++ content_of (Message.Prepare vote.now)) }
{
    put_u8(out, FORMAT)?;
    put_vote_body(out, PREPARE, vote)?;
    Ok(())
}

/// Appends the content that the signer of a Commit signs. It fails only where
/// memory is refused; some of it may stand there then.
pub fn put_commit_content(out: &mut Vec<u8>, vote: &Vote) -> Result<(), NoMemory>
    ensures { OnOk result (out.new.items ≡ out.old.items ++ content_of (Message.Commit vote.now)) }
{
    put_u8(out, FORMAT)?;
    put_vote_body(out, COMMIT, vote)?;
    Ok(())
}

/// Appends the content that the signer of a checkpoint signs. It fails only where
/// memory is refused; some of it may stand there then.
pub fn put_checkpoint_content(out: &mut Vec<u8>, vote: &StableVote) -> Result<(), NoMemory>
    ensures { OnOk result (out.new.items ≡ out.old.items ++ content_of (Message.Checkpoint vote.now)) }
{
    put_u8(out, FORMAT)?;
    put_checkpoint_body(out, vote)?;
    Ok(())
}

/// Appends the content that the signer of a view change signs. It fails only where
/// memory is refused; some of it may stand there then.
pub fn put_view_change_content(out: &mut Vec<u8>, change: &ViewChange) -> Result<(), NoMemory>
    requires { IsTrue (view_change_fits change.now) }
    ensures { OnOk result (out.new.items ≡ out.old.items ++ content_of (Message.ViewChange change.now)) }
{
    put_u8(out, FORMAT)?;
    put_view_change_body(out, change)?;
    Ok(())
}

/// Appends what stands between a content and a signature of so many bytes: their number, in two bytes, the high byte first. A content, this
/// and the signature are the spelling of a signed message. It fails only where memory is refused; some of it may stand there then.
pub fn put_seal_front(out: &mut Vec<u8>, signature_len: usize) -> Result<(), NoMemory>
    requires { signature_len < 2 ^ 16 }
    ensures { OnOk result (out.new.items ≡ out.old.items ++ to_be_bytes w16 signature_len) }
{
    put_signature_len(out, signature_len)?;
    Ok(())
}
