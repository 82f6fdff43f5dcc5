//! The words of a question, and values as the words of an answer.

use fab_base::{Bytes, NoMemory};
use std::alloc::{AllocFailed, Global};
use std::fmt::Debug;

/// Why a question gets no answer of its own.
#[derive(Clone, Copy)]
pub(crate) enum Unanswered {
    /// It is no question, or asks for what the call's conditions leave out.
    Unreadable,
    /// Memory was refused.
    NoMemory,
}

impl From<NoMemory> for Unanswered {
    fn from(_refused: NoMemory) -> Unanswered {
        Unanswered::NoMemory
    }
}

impl<T: Drop> From<AllocFailed<T>> for Unanswered {
    fn from(_refused: AllocFailed<T>) -> Unanswered {
        Unanswered::NoMemory
    }
}

/// An answer, or why there is none.
pub(crate) type Answer = Result<String, Unanswered>;

/// The word at a place. Behind the last one there are empty ones.
pub(crate) fn at(line: &str, place: usize) -> &str {
    line.split(' ').nth(place).unwrap_or("")
}

/// The number at a place, below 2^64.
pub(crate) fn number(line: &str, place: usize) -> Result<u64, Unanswered> {
    at(line, place).parse().or(Err(Unanswered::Unreadable))
}

/// The number at a place, below 256.
pub(crate) fn small(line: &str, place: usize) -> Result<u8, Unanswered> {
    at(line, place).parse().or(Err(Unanswered::Unreadable))
}

/// The bytes of the word at a place. Two quotation marks stand for none.
pub(crate) fn bytes(alloc: Global, line: &str, place: usize) -> Result<Bytes, NoMemory> {
    let word = at(line, place);
    let word = if word == "\"\"" { "" } else { word };
    Ok(Bytes::from_vec(word.as_bytes().to_vec(alloc)?))
}

/// A word of an answer.
pub(crate) fn plain(alloc: Global, word: &str) -> Answer {
    Ok(String::from_str(alloc, word)?)
}

/// A value as Rust writes it.
pub(crate) fn shown<T: Debug>(alloc: Global, value: &T) -> Answer {
    Ok(format!(in alloc; "{value:?}")?)
}
