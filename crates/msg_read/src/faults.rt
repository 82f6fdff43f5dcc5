//! Why bytes were not decoded.
ghost use Rattle.std.specs.Prelude.{◌≡◌};
ghost use Rattle.msg_read.specs.declared.faults.DecodeFault.TheVariants.{NoMemory};

use fab_codec::CodeFault;
use std::alloc::{AllocError, AllocFailed};

/// Why bytes were not decoded.
#[derive(Clone, Copy, Debug, Drop, PartialEq, Eq)]
pub enum DecodeFault {
    /// The bytes spell no message; this is their first fault.
    Code(CodeFault),
    /// Memory was refused.
    NoMemory,
}

impl From<AllocError> for DecodeFault {
    ghost from_gives = { λ _ e. e ≡ NoMemory };

    fn from(_refused: AllocError) -> DecodeFault {
        DecodeFault::NoMemory
    }
}

impl<T: Drop> From<AllocFailed<T>> for DecodeFault {
    ghost from_gives = { λ _ e. e ≡ NoMemory };

    fn from(_refused: AllocFailed<T>) -> DecodeFault {
        DecodeFault::NoMemory
    }
}
