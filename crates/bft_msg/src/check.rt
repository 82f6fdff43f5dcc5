//! What is asked of each part.
use fab_base::{Message, Request, StableVote, ViewChange, Vote};

/// A question that is asked of each part of a message, the message itself being part 0. An answer is a fault or none; a part in
/// which there are several faults answers the first.
///
/// `may` says of which parts it may be asked, `wrong` lists the faults of a part that has a number, and `free` has the faults that
/// need no cause, such as want of memory.
pub trait Check {
    ghost use Rattle.std.specs.Prelude.{ℕ, List, IsTrue};
    ghost use Rattle.fab_base.specs.declared.messages.Message.{Message};
    ghost use Rattle.fab_rules.specs.Format.{fits};
    ghost use Rattle.bft_msg.specs.Passing.{Clears};

    /// What may be wrong with a part.
    type Fault;

    ghost may: { Self → Message → Type 0 };

    ghost wrong: { Self → ℕ → Message → List Self.Fault };

    ghost free: { Self.Fault → Type 0 };

    /// Asks of the message itself.
    fn message(&self, message: &Message) -> Result<(), Self::Fault>
        requires spelled { IsTrue (fits message.now) }
        requires may { may self.now message.now }
        ensures { Clears free (wrong self.now 0 message.now) result };

    /// Asks of a request inside a message.
    fn request(&self, part: u32, request: &Request) -> Result<(), Self::Fault>
        requires { may self.now (Message.Request request.now) }
        ensures { Clears free (wrong self.now part (Message.Request request.now)) result };

    /// Asks of a Prepare inside a message.
    fn prepare(&self, part: u32, vote: &Vote) -> Result<(), Self::Fault>
        requires { may self.now (Message.Prepare vote.now) }
        ensures { Clears free (wrong self.now part (Message.Prepare vote.now)) result };

    /// Asks of a Commit inside a message.
    fn commit(&self, part: u32, vote: &Vote) -> Result<(), Self::Fault>
        requires { may self.now (Message.Commit vote.now) }
        ensures { Clears free (wrong self.now part (Message.Commit vote.now)) result };

    /// Asks of a Checkpoint inside a message.
    fn checkpoint(&self, part: u32, vote: &StableVote) -> Result<(), Self::Fault>
        requires { may self.now (Message.Checkpoint vote.now) }
        ensures { Clears free (wrong self.now part (Message.Checkpoint vote.now)) result };

    /// Asks of a view change inside a message.
    fn view_change(&self, part: u32, change: &ViewChange) -> Result<(), Self::Fault>
        requires { may self.now (Message.ViewChange change.now) }
        ensures { Clears free (wrong self.now part (Message.ViewChange change.now)) result };
}
