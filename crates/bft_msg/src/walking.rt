//! The walk over all parts of a message.
ghost use Rattle.std.specs.Prelude.{◌+◌, ◌<◌, ◌^◌, length, IsTrue};
ghost use Rattle.std.specs.List.{AllByRecursion};
ghost use Rattle.fab_rules.specs.Format.{fits};
ghost use Rattle.fab_rules.specs.Shape.{numbered};
ghost use Rattle.fab_rules.specs.Statements.{parts_of};
ghost use Rattle.bft_msg.specs.Inside.{parts_inside};
ghost use Rattle.bft_msg.specs.Passing.{Passes, Clears};

use crate::check::Check;
use crate::listings::{Certificates, Changes, Checkpoints, Commits, Requests, walk_all, walk_both};
use fab_base::Message;

/// Asks of each part inside the message, which are numbered from 1.
fn walk_inside<C: Check>(check: &C, message: &Message) -> Result<u32, C::Fault>
    requires room { 1 + length (parts_inside message.now) < 2 ^ 32 }
    requires may { AllByRecursion (C.may check.now) (parts_inside message.now) }
    ensures { Passes C.free (C.wrong check.now) 1 (parts_inside message.now) result }
{
    match message {
        Message::PrePrepare(x) => walk_all::<Requests, C>(check, 1, x.batch.as_slice()),
        Message::ViewChange(x) => walk_both::<Checkpoints, Certificates, C>(
            check,
            1,
            x.proof.as_slice(),
            x.prepared.as_slice(),
        ),
        Message::NewView(x) => walk_all::<Changes, C>(check, 1, x.changes.as_slice()),
        Message::Share(x) => {
            walk_both::<Requests, Commits, C>(check, 1, x.batch.as_slice(), x.votes.as_slice())
        }
        _ => Ok(1),
    }
}

/// Asks of each part of a message, in the order of their numbers: the message itself is part 0, and the statements inside it, at any
/// depth, are numbered on in the order of their first bytes. It stops at the first fault. A message that has a spelling has fewer
/// than 3,000 parts.
pub fn walk<C: Check>(check: &C, message: &Message) -> Result<(), C::Fault>
    requires spelled { IsTrue (fits message.now) }
    requires may { AllByRecursion (C.may check.now) (parts_of message.now) }
    ensures { Clears C.free (numbered (C.wrong check.now) 0 (parts_of message.now)) result }
{
    check.message(message)?;
    walk_inside(check, message)?;
    Ok(())
}
