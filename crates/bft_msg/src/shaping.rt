//! The look at a message.
ghost use Rattle.std.specs.Prelude.{◌≡◌, ◌↔◌, [], IfErr, IfOk, IsOk, IsTrue, Some};
ghost use Rattle.fab_rules.specs.Format.{fits};
ghost use Rattle.fab_rules.specs.Shape.{misfits, first_misfit};
ghost use Rattle.bft_msg.specs.Passing.{Clears, NoneIs};

use crate::misfits::Misfits;
use crate::shaped::Shaped;
use crate::strangers::Strangers;
use crate::walking::walk;
use fab_base::{Members, Message};
use fab_rules::Misfit;

/// The two passes: first over all parts the strangers, and then over all parts their own misfits.
fn look(members: &Members, message: &Message) -> Result<(), Misfit>
    requires { IsTrue (fits message.now) }
    ensures { Clears NoneIs (misfits members.now message.now) result }
{
    walk(&Strangers { members }, message)?;
    walk(&Misfits { members }, message)
}

/// Looks whether a message that has a spelling is well formed for the members (ours). It is `Ok` exactly where there is no misfit in
/// it; else the first misfit is answered, and the message comes back: first the strangers of all parts, and then, part by part, what
/// breaks a rule of its kind, and then what is wrong with its certificates and proofs. The handle to the members goes into the
/// `Shaped`, or is dropped. Takes no memory.
pub fn shape(members: Members, message: Message) -> Result<Shaped, (Misfit, Message)>
    requires { IsTrue (fits message) }
    ensures when { IsOk result ↔ (misfits members message ≡ []) }
    ensures shaped { IfOk result (λ s. s ≡ record { members = members; message = message }) }
    ensures first { IfErr result (λ refused. first_misfit members message ≡ Some refused.0) }
    ensures handed_back { IfErr result (λ refused. refused.1 ≡ message) }
{
    match look(&members, &message) {
        Ok(()) => Ok(Shaped::new(members, message)),
        Err(misfit) => Err((misfit, message)),
    }
}
