//! Why bytes are refused.
ghost use Rattle.std.specs.Prelude.{◌≡◌};
ghost use Rattle.bft_verify.specs.declared.refusals.Refusal.TheVariants.{NoMemory};

use fab_base::NoMemory;
use fab_codec::CodeFault;
use fab_rules::Misfit;
use lms_tree::SigFault;
use msg_read::DecodeFault;

/// Why bytes are refused (ours). The first that applies is answered: a fault of the spelling; then the misfits of the message, as its
/// shape has them; then the signatures, in the order of the parts. The message itself is part 0, and the statements inside it are
/// numbered on in the order of their first bytes. Want of memory may come in place of any other answer.
#[derive(Clone, Copy, Debug, Drop, PartialEq, Eq)]
pub enum Refusal {
    /// The bytes spell no message; this is their first fault.
    Decode(CodeFault),
    /// The part's signer or asker, or a cluster that it names, doesn't take part.
    Stranger {
        /// The number of the part.
        part: u32,
    },
    /// The part's own fields break a rule of its kind.
    BadShape {
        /// The number of the part.
        part: u32,
    },
    /// A certificate or a proof in the part isn't a quorum's equal statements.
    BadCert {
        /// The number of the part.
        part: u32,
    },
    /// The statements of a certificate in the part bear another digest than that of its batch.
    WrongDigest {
        /// The number of the part.
        part: u32,
    },
    /// The part's signature isn't valid under its signer's key.
    BadSignature {
        /// The number of the part.
        part: u32,
        /// Why not.
        fault: SigFault,
    },
    /// Memory was refused.
    NoMemory,
}

impl From<NoMemory> for Refusal {
    ghost from_gives = { λ _ e. e ≡ NoMemory };

    fn from(_refused: NoMemory) -> Refusal {
        Refusal::NoMemory
    }
}

impl From<DecodeFault> for Refusal {
    ghost use Rattle.bft_verify.specs.Answers.{of_decode};

    ghost from_gives = { λ fault e. e ≡ of_decode fault };

    fn from(fault: DecodeFault) -> Refusal {
        match fault {
            DecodeFault::Code(fault) => Refusal::Decode(fault),
            DecodeFault::NoMemory => Refusal::NoMemory,
        }
    }
}

impl From<Misfit> for Refusal {
    ghost use Rattle.bft_verify.specs.Sound.{of_misfit};

    ghost from_gives = { λ misfit e. e ≡ of_misfit misfit };

    fn from(misfit: Misfit) -> Refusal {
        match misfit {
            Misfit::Stranger { part } => Refusal::Stranger { part },
            Misfit::BadShape { part } => Refusal::BadShape { part },
            Misfit::BadCert { part } => Refusal::BadCert { part },
            Misfit::WrongDigest { part } => Refusal::WrongDigest { part },
        }
    }
}
