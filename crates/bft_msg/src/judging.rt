//! The walk over the signed parts of a message.
ghost use Rattle.std.specs.Prelude.{◌≡◌, IfErr, IfOk, IsTrue, Ok, Some};
ghost use Rattle.fab_base.specs.declared.ids.Who.{Who};
ghost use Rattle.fab_rules.specs.Format.{fits};
ghost use Rattle.fab_rules.specs.Shape.{numbered};
ghost use Rattle.fab_rules.specs.Spelling.{content_of};
ghost use Rattle.fab_rules.specs.Statements.{parts_of, signer_of, signature_of};
ghost use Rattle.bft_msg.specs.Judging.{found_in};
ghost use Rattle.bft_msg.specs.Passing.{Clears};

use crate::check::Check;
use crate::walking::walk;
use fab_base::{Bytes, Message, NoMemory, ReplicaId, Request, StableVote, ViewChange, Vote, Who};
use msg_spell::{
    content, put_checkpoint_content, put_commit_content, put_prepare_content, put_request_content,
    put_view_change_content,
};
use std::alloc::Global;

/// Who judges the signed parts of a message, each by its signer, what was signed, and the signature.
///
/// `wrong` lists the faults of a part by these; a part that nobody signs has none. `free` has the faults that need no cause in the
/// message, such as want of memory.
pub trait Judge {
    ghost use Rattle.std.specs.Prelude.{◌≡◌, ℕ, List, [], Option, Some, None};
    ghost use Rattle.fab_base.specs.declared.ids.Who.{Who};
    ghost use Rattle.bft_msg.specs.Judging.{IsSignedPart};
    ghost use Rattle.bft_msg.specs.Passing.{Clears};

    /// What may be wrong with a part.
    type Fault;

    ghost wrong: { Self → ℕ → Option Who → List ℕ → List ℕ → List Self.Fault };

    ghost free: { Self.Fault → Type 0 };

    /// Judges the part of this number.
    fn judge(
        &self,
        part: u32,
        signer: Who,
        content: &[u8],
        signature: &[u8],
    ) -> Result<(), Self::Fault>
        requires { IsSignedPart signer content.now signature.now }
        ensures { Clears free (wrong self.now part (Some signer) content.now signature.now) result };

    /// The fault that is answered where memory for a part's content is refused.
    fn no_memory(&self) -> Self::Fault
        ensures { free result };

    ghost unsigned: { (s : Self) (k : ℕ) (content signature : List ℕ) → wrong s k None content signature ≡ [] };
}

/// The question that hands each signed part to a judge. What was signed is written again, once for each part, into memory that is
/// given back before the next part.
#[derive(Clone, Copy, Drop)]
struct SignedParts<'a, J> {
    alloc: Global,
    judge: &'a J,
}

impl<J: Judge> SignedParts<'_, J> {
    /// What was done, or the fault for want of memory.
    fn done<T>(&self, done: Result<T, NoMemory>) -> Result<T, J::Fault>
        ensures ok { IfOk result (λ value. done ≡ Ok value) }
        ensures err { IfErr result J.free }
    {
        match done {
            Ok(value) => Ok(value),
            Err(NoMemory) => Err(self.judge.no_memory()),
        }
    }

    /// Hands on a message that a replica signed and that stands in no other.
    fn alone(&self, message: &Message, signer: ReplicaId, signature: &Bytes) -> Result<(), J::Fault>
        requires spelled { IsTrue (fits message.now) }
        requires signer { signer_of message.now ≡ Some (Who.Replica signer) }
        requires signature { signature_of message.now ≡ signature.now }
        ensures { Clears J.free (J.wrong self.now.judge.now 0 (Some (Who.Replica signer)) (content_of message.now) signature.now) result }
    {
        let content = self.done(content(self.alloc, message))?;
        let signer = Who::Replica(signer);
        self.judge
            .judge(0, signer, content.as_slice(), signature.as_slice())
    }
}

impl<J: Judge> Check for SignedParts<'_, J> {
    ghost use Rattle.std.specs.Prelude.{◌≡◌, true};
    ghost use Rattle.fab_rules.specs.Format.{fields_fit};
    ghost use Rattle.bft_msg.specs.Judging.{found_in};

    type Fault = J::Fault;

    ghost may = { λ s p. fields_fit p ≡ true };

    ghost wrong = { λ s k p. found_in (J.wrong s.judge.now) k p };

    ghost free = { J.free };

    fn message(&self, message: &Message) -> Result<(), J::Fault> {
        match message {
            Message::Request(x) => self.request(0, x),
            Message::PrePrepare(x) => self.alone(message, x.signer, &x.sig),
            Message::Prepare(x) => self.prepare(0, x),
            Message::Commit(x) => self.commit(0, x),
            Message::Checkpoint(x) => self.checkpoint(0, x),
            Message::ViewChange(x) => self.view_change(0, x),
            Message::NewView(x) => self.alone(message, x.signer, &x.sig),
            Message::Drvc(x) => self.alone(message, x.signer, &x.sig),
            Message::Rvc(x) => self.alone(message, x.signer, &x.sig),
            Message::ReplyNote(x) => self.alone(message, x.signer, &x.sig),
            Message::Share(_) => Ok(()),
            Message::Fetch(_) => Ok(()),
        }
    }

    fn request(&self, part: u32, request: &Request) -> Result<(), J::Fault> {
        let mut content = Vec::new(self.alloc);
        self.done(put_request_content(&mut content, request))?;
        let signer = Who::Client(request.client);
        self.judge
            .judge(part, signer, &content, request.sig.as_slice())
    }

    fn prepare(&self, part: u32, vote: &Vote) -> Result<(), J::Fault> {
        let mut content = Vec::new(self.alloc);
        self.done(put_prepare_content(&mut content, vote))?;
        let signer = Who::Replica(vote.signer);
        self.judge
            .judge(part, signer, &content, vote.sig.as_slice())
    }

    fn commit(&self, part: u32, vote: &Vote) -> Result<(), J::Fault> {
        let mut content = Vec::new(self.alloc);
        self.done(put_commit_content(&mut content, vote))?;
        let signer = Who::Replica(vote.signer);
        self.judge
            .judge(part, signer, &content, vote.sig.as_slice())
    }

    fn checkpoint(&self, part: u32, vote: &StableVote) -> Result<(), J::Fault> {
        let mut content = Vec::new(self.alloc);
        self.done(put_checkpoint_content(&mut content, vote))?;
        let signer = Who::Replica(vote.signer);
        self.judge
            .judge(part, signer, &content, vote.sig.as_slice())
    }

    fn view_change(&self, part: u32, change: &ViewChange) -> Result<(), J::Fault> {
        let mut content = Vec::new(self.alloc);
        self.done(put_view_change_content(&mut content, change))?;
        let signer = Who::Replica(change.signer);
        self.judge
            .judge(part, signer, &content, change.sig.as_slice())
    }
}

/// Hands each part of a message that somebody signed to the judge, in the order of the parts: the message itself is part 0, and the
/// statements inside it, at any depth, are numbered on in the order of their first bytes; what nobody signs has a number and is passed
/// over. It stops at the first fault. Each part's content is written once, into memory that is given back before the next part.
pub fn judge_parts<J: Judge>(alloc: Global, judge: &J, message: &Message) -> Result<(), J::Fault>
    requires { IsTrue (fits message.now) }
    ensures { Clears J.free (numbered (found_in (J.wrong judge.now)) 0 (parts_of message.now)) result }
{
    walk(&SignedParts { alloc, judge }, message)
}
