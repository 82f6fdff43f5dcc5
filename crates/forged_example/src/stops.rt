//! Why there is no transcript.
use bft_verify::Refusal;
use fab_base::NoMemory;
use lms_tree::SignFault;
use thiserror::Error;

/// Why nothing forged is heard.
#[derive(Clone, Copy, Debug, Drop, PartialEq, Eq, Error)]
pub(crate) enum Stop {
    /// The script has too few replicas.
    #[error("the script has fewer than three replicas")]
    TooFew,
    /// The stolen key has no leaf left.
    #[error("the stolen key is used up")]
    KeySpent,
    /// The forged statement has no spelling.
    #[error("the forged statement has no spelling")]
    NoSpelling,
    /// The forged statement is refused where it comes in.
    #[error("the forged statement is refused: {0:?}")]
    Refused(Refusal),
    /// Memory was refused.
    #[error("no memory")]
    NoMemory,
}

impl From<NoMemory> for Stop {
    fn from(_refused: NoMemory) -> Stop {
        Stop::NoMemory
    }
}

impl From<SignFault> for Stop {
    fn from(fault: SignFault) -> Stop {
        match fault {
            SignFault::KeySpent { .. } => Stop::KeySpent,
            SignFault::NoMemory => Stop::NoMemory,
        }
    }
}

impl From<Refusal> for Stop {
    fn from(refusal: Refusal) -> Stop {
        match refusal {
            Refusal::NoMemory => Stop::NoMemory,
            refusal => Stop::Refused(refusal),
        }
    }
}
