// The words of a question.

ghost use Rattle.std.specs.Prelude.{◌≡◌, ◌≤◌, ⊤, IfOk};
ghost use Rattle.lms_tree.specs.Heights.{levels};

use hex::{FromHex, FromHexError};
use lms_tree::{Height, OtsKind};
use std::alloc::{AllocError, Global};

// Why a question gets no answer of its own.
#[derive(Clone, Copy, Debug, PartialEq, Eq)]
pub(crate) enum Unanswered {
    Unreadable,
    NoMemory,
}

impl From<AllocError> for Unanswered {
    ghost use Rattle.lms_check.specs.declared.words.Unanswered.TheVariants.{NoMemory};

    ghost from_gives = { λ _ unanswered. unanswered ≡ NoMemory };

    fn from(_error: AllocError) -> Unanswered {
        Unanswered::NoMemory
    }
}

impl From<FromHexError> for Unanswered {
    ghost from_gives = { λ _ _. ⊤ };

    fn from(error: FromHexError) -> Unanswered {
        match error {
            FromHexError::OutOfMemory => Unanswered::NoMemory,
            _ => Unanswered::Unreadable,
        }
    }
}

pub(crate) fn bytes(alloc: Global, text: &str) -> Result<Vec<u8>, Unanswered> {
    Ok(hex::decode(alloc, text)?)
}

pub(crate) fn id(text: &str) -> Result<[u8; 16], Unanswered> {
    Ok(<[u8; 16] as FromHex>::from_hex(text)?)
}

pub(crate) fn hash(text: &str) -> Result<[u8; 32], Unanswered> {
    Ok(<[u8; 32] as FromHex>::from_hex(text)?)
}

pub(crate) fn number(text: &str) -> Result<u32, Unanswered> {
    text.parse().or(Err(Unanswered::Unreadable))
}

pub(crate) fn kind(text: &str) -> Result<OtsKind, Unanswered> {
    match text {
        "W1" => Ok(OtsKind::W1),
        "W2" => Ok(OtsKind::W2),
        "W4" => Ok(OtsKind::W4),
        "W8" => Ok(OtsKind::W8),
        _ => Err(Unanswered::Unreadable),
    }
}

// A height of which keys are made.
pub(crate) fn height(text: &str) -> Result<Height, Unanswered>
    ensures { IfOk result (λ height. levels height ≤ 10) }
{
    match text {
        "H5" => Ok(Height::H5),
        "H10" => Ok(Height::H10),
        _ => Err(Unanswered::Unreadable),
    }
}
