//! Holds calls of `lmots_core`, `lms_tree` and `lms_leaf` against the answers that are expected of them.
//!
//! Standard input is a table for people to read: a line `CALL = ANSWER` is one case, a line that begins
//! with `#` says what the cases below it show, and an empty line is passed over. Each case whose answer is
//! another is printed, and in the end how many of them were as expected.
//!
//! | Call | Answer |
//! |---|---|
//! | `coef KIND BYTES PLACE` | the digit at that place of the bytes, which are given in hex |
//! | `checksum KIND BYTE` | the checksum of a digest in which all bytes are this one |
//! | `kind KIND`, `height HEIGHT` | the parameters of the set |
//! | `one-time KIND LEAF MESSAGE OTHER-LEAF OTHER-MESSAGE` | how long the one-time signature of the message is, and whether it leads to the leaf's key when it is taken for that of the other message by the other leaf |
//! | `sign KIND HEIGHT LEAF CONTENT` | the length of the leaf's signature, its first bytes and its randomizer |
//! | `verify KIND HEIGHT LEAF CONTENT OTHER` | the verdict on that signature, taken for one of the other content |
//! | `spoil KIND HEIGHT LEAF CHANGES` | the verdict on a signature of `content` that is changed |
//! | `signer KIND HEIGHT STEPS` | the leaves that a signer uses, one for each `1` and a pair for each `2` |
//! | `seed` | what is printed of the seed for debugging |
//!
//! A kind is `W1`, `W2`, `W4` or `W8`, a height `H5` or `H10`, and a content one word, or `""` for none. All keys come from one seed. Changes stand between commas: `7=3` puts the byte 3
//! at place 7, `7^1` flips its lowest bit, `..8` keeps 8 bytes and `+0` adds one. A line that is none of
//! these is answered `unreadable`.
#![tactic(auto)]

use std::io::{BufRead, BufReader};

mod calls;
mod changes;
mod one_time;
mod signers;
mod trees;
mod words;

fn main(rt: HostRuntime) -> std::io::Result<()> {
    let mut cases = 0u64;
    let mut expected = 0u64;
    for line in BufReader::new(rt.alloc(), rt.reader())?.lines(rt.alloc()) {
        let line = line?;
        let line = line.as_str();
        if line.is_empty() || line.starts_with('#') {
            continue;
        }
        let (call, wanted) = line.split_once(" = ").unwrap_or((line, ""));
        let answer = calls::answer(rt.alloc(), call)?;
        cases = cases.saturating_add(1);
        if answer.as_str() == wanted {
            expected = expected.saturating_add(1);
        } else {
            println!(rt; "{call} = {answer}, not {wanted}")?;
        }
    }
    println!(rt; "{expected} of {cases} cases as expected")?;
    Ok(())
}
