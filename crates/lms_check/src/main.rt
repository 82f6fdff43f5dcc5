//! Answers questions on LMS keys and signatures, so that another implementation of RFC 8554 can be
//! held against ours. Each line of standard input is a question of words with one space between
//! them; bytes are written in hex, and an empty word stands for no bytes. Each is answered by one line.
//!
//! | Question | Answer |
//! |---|---|
//! | `verify KEY CONTENT SIGNATURE` | `valid`, or `refused` with the name of the refusal |
//! | `read KEY` | the key's two types, as `W4 H5`, or `refused` with the name of the refusal |
//! | `public KIND HEIGHT ID SEED` | the public key that is made from the seed |
//! | `onetime KIND ID SEED LEAF RANDOMIZER CONTENT` | the one-time signature |
//! | `sign KIND HEIGHT ID SEED LEAF CONTENT` | the signature of the leaf with its own randomizer |
//!
//! A kind is `W1`, `W2`, `W4` or `W8`, and a height `H5` or `H10`. A question that is none of these
//! is answered `unreadable`.
#![tactic(auto)]

use std::io;
use std::io::{BufRead, BufReader};

mod answers;
mod words;

fn main(rt: HostRuntime) -> io::Result<()> {
    for line in BufReader::new(rt.alloc(), rt.reader())?.lines(rt.alloc()) {
        let answer = answers::answer(rt.alloc(), line?.as_str())?;
        println!(rt; "{answer}")?;
    }
    Ok(())
}
