//! A message in which nothing is wrong.
ghost use Rattle.std.specs.Prelude.{◌≡◌};
ghost use Rattle.fab_rules.specs.Shape.{IsShaped};

use fab_base::{Members, Message};
use std::marker::Model;

/// A message together with the members for whom it is shaped: it has a spelling, and there is no misfit in it. The type keeps both,
/// so nobody has to look at it again. A contract sees the members and the message.
#[derive(Debug, Drop)]
pub struct Shaped {
    members: Members,
    message: Message,
}

impl Model for Shaped {
    ghost use Rattle.bft_msg.specs.Judged.{Judged};
    ghost use Rattle.fab_rules.specs.Shape.{IsShaped};

    ghost Value = { Judged };

    ghost view = { λ s. record { members = s.members; message = s.message } };

    ghost invariant = { λ s. IsShaped s.members s.message };
}

impl Shaped {
    /// The message, which has been looked at.
    pub(crate) fn new(members: Members, message: Message) -> Shaped
        requires { IsShaped members message }
        ensures { result ≡ record { members = members; message = message } }
    {
        Shaped { members, message }
    }

    /// The members for whom the message is shaped.
    pub fn members(&self) -> &Members
        ensures is { result.now ≡ self.now.members }
        ensures shaped { IsShaped self.now.members self.now.message }
    {
        &self.members
    }

    /// The message.
    pub fn message(&self) -> &Message
        ensures is { result.now ≡ self.now.message }
        ensures shaped { IsShaped self.now.members self.now.message }
    {
        &self.message
    }

    /// The message, without the handle to the members. Takes no memory.
    pub fn into_message(self) -> Message
        ensures is { result ≡ self.message }
        ensures shaped { IsShaped self.members self.message }
    {
        self.message
    }
}
