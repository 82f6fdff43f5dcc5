//! The words of a call.
ghost use Rattle.std.specs.Prelude.{◌≡◌, ◌≤◌, ⊤, IfOk};
ghost use Rattle.lms_tree.specs.Heights.{levels};

use hex::FromHexError;
use lms_tree::{Height, OtsKind};
use std::alloc::AllocError;
use std::str::FromStr;

/// Why a call gets no answer of its own.
#[derive(Clone, Copy, Debug, PartialEq, Eq)]
pub(crate) enum Unanswered {
    Unreadable,
    NoMemory,
}

impl From<AllocError> for Unanswered {
    ghost use Rattle.lms_cases.specs.declared.words.Unanswered.TheVariants.{NoMemory};

    ghost from_gives = { λ _ unanswered. unanswered ≡ NoMemory };

    fn from(_error: AllocError) -> Unanswered {
        Unanswered::NoMemory
    }
}

impl From<FromHexError> for Unanswered {
    ghost from_gives = { λ _ _. ⊤ };

    fn from(error: FromHexError) -> Unanswered {
        match error {
            FromHexError::OutOfMemory => Unanswered::NoMemory,
            _ => Unanswered::Unreadable,
        }
    }
}

/// A number that a word spells.
pub(crate) fn number<N: FromStr + Drop>(word: &str) -> Result<N, Unanswered>
where
    N::Err: Drop,
{
    word.parse().or(Err(Unanswered::Unreadable))
}

/// A content: a word, or nothing.
pub(crate) fn content(word: &str) -> &[u8] {
    if word == "\"\"" { b"" } else { word.as_bytes() }
}

pub(crate) fn kind(word: &str) -> Result<OtsKind, Unanswered> {
    match word {
        "W1" => Ok(OtsKind::W1),
        "W2" => Ok(OtsKind::W2),
        "W4" => Ok(OtsKind::W4),
        "W8" => Ok(OtsKind::W8),
        _ => Err(Unanswered::Unreadable),
    }
}

pub(crate) fn height(word: &str) -> Result<Height, Unanswered> {
    match word {
        "H5" => Ok(Height::H5),
        "H10" => Ok(Height::H10),
        "H15" => Ok(Height::H15),
        "H20" => Ok(Height::H20),
        "H25" => Ok(Height::H25),
        _ => Err(Unanswered::Unreadable),
    }
}

/// A height of which keys are made.
pub(crate) fn low_height(word: &str) -> Result<Height, Unanswered>
    ensures { IfOk result (λ height. levels height ≤ 10) }
{
    match height(word)? {
        Height::H5 => Ok(Height::H5),
        Height::H10 => Ok(Height::H10),
        _ => Err(Unanswered::Unreadable),
    }
}
