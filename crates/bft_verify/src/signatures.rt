//! The third pass: whether the signature of each part is valid.
use crate::refusals::Refusal;
use crate::ring::Keyring;
use bft_msg::Judge;
use fab_base::Who;
use lms_tree::{SigFault, verify};

/// The judge of signatures: whether each is one of its part's content under its signer's key (RFC 8554, section 5.4.2). Of a signer without
/// a key none is.
#[derive(Clone, Copy, Drop)]
pub(crate) struct Signatures<'a> {
    /// The keys.
    pub(crate) ring: &'a Keyring,
}

impl Judge for Signatures<'_> {
    ghost use Rattle.std.specs.Prelude.{refl};
    ghost use Rattle.bft_verify.specs.Answers.{IsFree};
    ghost use Rattle.bft_verify.specs.Sound.{refused_of};

    type Fault = Refusal;

    ghost wrong = { λ s. refused_of s.ring.now };

    ghost free = { IsFree };

    fn judge(
        &self,
        part: u32,
        signer: Who,
        content: &[u8],
        signature: &[u8],
    ) -> Result<(), Refusal> {
        let verdict = match self.ring.key(signer) {
            Some(key) => verify(key, content, signature),
            None => Err(SigFault::WrongRoot),
        };
        match verdict {
            Ok(()) => Ok(()),
            Err(fault) => Err(Refusal::BadSignature { part, fault }),
        }
    }

    fn no_memory(&self) -> Refusal {
        Refusal::NoMemory
    }

    ghost unsigned = { λ s k content signature. refl };
}
