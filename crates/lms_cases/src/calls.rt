//! From the words of a call to its answer.
use crate::words::Unanswered;
use crate::{one_time, signers, trees};
use std::alloc::{AllocError, Global};

/// The answer to a call. `Err` comes only where memory is refused.
pub(crate) fn answer(alloc: Global, call: &str) -> Result<String, AllocError> {
    match answer_words(alloc, call) {
        Ok(answer) => Ok(answer),
        Err(Unanswered::Unreadable) => String::from_str(alloc, "unreadable"),
        Err(Unanswered::NoMemory) => Err(AllocError),
    }
}

fn answer_words(alloc: Global, call: &str) -> Result<String, Unanswered> {
    let words: Vec<&str> = call.split(' ').collect(alloc)?;
    match words.as_slice() {
        ["seed"] => trees::seed(alloc),
        ["kind", word] => one_time::parameters(alloc, word),
        ["height", word] => trees::parameters(alloc, word),
        ["checksum", kind, byte] => one_time::checksum_of(alloc, kind, byte),
        ["coef", kind, bytes, place] => one_time::digit(alloc, kind, bytes, place),
        ["one-time", kind, leaf, message, of_leaf, of_message] => {
            one_time::one_time(alloc, kind, leaf, message, of_leaf, of_message)
        }
        [name, kind, height, rest @ ..] => of_key(alloc, name, kind, height, rest),
        _ => Err(Unanswered::Unreadable),
    }
}

// The calls that make a key.
fn of_key(
    alloc: Global,
    name: &str,
    kind: &str,
    height: &str,
    rest: &[&str],
) -> Result<String, Unanswered> {
    match (name, rest) {
        ("sign", [leaf, content]) => trees::sign(alloc, kind, height, leaf, content),
        ("verify", [leaf, content, other]) => {
            trees::verdict(alloc, kind, height, leaf, content, other, "")
        }
        ("spoil", [leaf, changes]) => {
            trees::verdict(alloc, kind, height, leaf, "content", "content", changes)
        }
        ("signer", [steps]) => signers::steps(alloc, kind, height, steps),
        _ => Err(Unanswered::Unreadable),
    }
}
