//! What can be wrong with a script.
use fab_base::NoMemory;
use std::alloc::AllocFailed;
use thiserror::Error;

/// Why a line is refused. Of several causes the first in the order of the line's check is named.
#[derive(Clone, Copy, Debug, Drop, PartialEq, Eq, Error)]
pub enum Why {
    /// A byte that no line may hold, an unknown word, a word too many, or a key or value that is too long.
    #[error("BadWord")]
    BadWord,
    /// A word that is to be a number and is none: not 1 to 20 digits, or 2^64 or more.
    #[error("BadNumber")]
    BadNumber,
    /// A number outside its range.
    #[error("OutOfRange")]
    OutOfRange,
    /// A cluster or client that no line above declares.
    #[error("Unknown")]
    Unknown,
    /// A setting that a line above gave.
    #[error("Double")]
    Double,
    /// A word too few.
    #[error("Missing")]
    Missing,
    /// More faulty replicas than a cluster bears.
    #[error("TooManyFaulty")]
    TooManyFaulty,
    /// One more cluster, client or request than there may be.
    #[error("TooMany")]
    TooMany,
}

/// The first bad line of a script.
#[derive(Clone, Copy, Debug, Drop, PartialEq, Eq, Error)]
#[error("script line {line}: {why}")]
pub struct BadScript {
    /// The number of the line, from 1. Skipped lines count.
    pub line: u64,
    /// The first cause.
    pub why: Why,
}

/// Why a script isn't read.
#[derive(Clone, Copy, Debug, Drop, PartialEq, Eq)]
pub enum ScriptFault {
    /// It has a bad line.
    Bad(BadScript),
    /// Memory is refused.
    NoMemory,
}

/// Why a line isn't read.
#[derive(Clone, Copy, Debug, Drop, PartialEq, Eq)]
pub(crate) enum LineFault {
    /// The first cause.
    Bad(Why),
    /// Memory is refused.
    NoMemory,
}

impl From<Why> for LineFault {
    ghost use Rattle.std.specs.Prelude.{◌≡◌};
    ghost use Rattle.fault_script.specs.declared.faults.LineFault.TheVariants.{Bad};

    ghost from_gives = { λ why fault. fault ≡ Bad why };

    fn from(why: Why) -> LineFault {
        LineFault::Bad(why)
    }
}

impl From<NoMemory> for LineFault {
    ghost use Rattle.std.specs.Prelude.{◌≡◌};
    ghost use Rattle.fault_script.specs.declared.faults.LineFault.TheVariants.{NoMemory};

    ghost from_gives = { λ refused fault. fault ≡ NoMemory };

    fn from(_refused: NoMemory) -> LineFault {
        LineFault::NoMemory
    }
}

impl<T: Drop> From<AllocFailed<T>> for LineFault {
    ghost use Rattle.std.specs.Prelude.{◌≡◌};
    ghost use Rattle.fault_script.specs.declared.faults.LineFault.TheVariants.{NoMemory};

    ghost from_gives = { λ refused fault. fault ≡ NoMemory };

    fn from(_refused: AllocFailed<T>) -> LineFault {
        LineFault::NoMemory
    }
}
