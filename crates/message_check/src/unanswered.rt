//! Why a line gets no answer of its own.
use hex::FromHexError;
use std::alloc::{AllocError, AllocFailed};

/// Why a line gets no answer of its own.
#[derive(Clone, Copy, Debug, Drop, PartialEq, Eq)]
pub(crate) enum Unanswered {
    /// The line isn't hex, or names no fabric.
    Unreadable,
    /// The fabric is beyond the limits.
    OutOfLimits,
    /// Memory was refused.
    NoMemory,
}

impl From<AllocError> for Unanswered {
    ghost use Rattle.std.specs.Prelude.{◌≡◌};
    ghost use Rattle.message_check.specs.declared.unanswered.Unanswered.TheVariants.{NoMemory};

    ghost from_gives = { λ _ unanswered. unanswered ≡ NoMemory };

    fn from(_error: AllocError) -> Unanswered {
        Unanswered::NoMemory
    }
}

impl<T: Drop> From<AllocFailed<T>> for Unanswered {
    ghost use Rattle.std.specs.Prelude.{◌≡◌};
    ghost use Rattle.message_check.specs.declared.unanswered.Unanswered.TheVariants.{NoMemory};

    ghost from_gives = { λ _ unanswered. unanswered ≡ NoMemory };

    fn from(_refused: AllocFailed<T>) -> Unanswered {
        Unanswered::NoMemory
    }
}

impl From<FromHexError> for Unanswered {
    ghost use Rattle.std.specs.Prelude.{⊤};

    ghost from_gives = { λ _ _. ⊤ };

    fn from(error: FromHexError) -> Unanswered {
        match error {
            FromHexError::OutOfMemory => Unanswered::NoMemory,
            _ => Unanswered::Unreadable,
        }
    }
}
