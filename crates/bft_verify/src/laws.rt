//! What soundness means.
ghost use Rattle.fab_base.specs.Limits.{Roster};
ghost use Rattle.fab_base.specs.declared.messages.Message.{Message};
ghost use Rattle.fab_rules.specs.Shape.{IsShaped};
ghost use Rattle.bft_verify.specs.Ring.{Ring};
ghost use Rattle.bft_verify.specs.Sound.{IsSound, AreSigned};

/// The law of soundness: a message in which nothing is refused is shaped for the members, and each part of it that somebody signs
/// bears a valid signature of its content under its signer's key (RFC 8554, section 5.4.2); and each message of which both hold is one.
pub fn sound_law()
    ensures shaped { (r : Roster) (ring : Ring) (m : Message) → IsSound r ring m → IsShaped r m }
    ensures signed { (r : Roster) (ring : Ring) (m : Message) → IsSound r ring m → AreSigned ring m }
    ensures only { (r : Roster) (ring : Ring) (m : Message) → IsShaped r m → AreSigned ring m → IsSound r ring m }
{}
