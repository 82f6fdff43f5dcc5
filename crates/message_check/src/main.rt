//! Answers messages as a replica's edge does, so that another implementation of the fabric can be held against ours.
//!
//! The first line of standard input names a fabric, as `fabric 4,4 1,2 16 8 8 5 0`: the sizes of the clusters, the homes of the
//! clients, the window, the checkpoint interval, the greatest number of requests of a batch, the height of the replicas' keys (5 or
//! 10), and the seed of all keys. There is one space between two words, and an empty word stands for no numbers. Each further line is
//! a message in hex, and is answered by one line:
//!
//! | Answer | Where |
//! |---|---|
//! | `Ok` and the message's kind, as `Ok Prepare` | the bytes spell a message that is sound for the fabric |
//! | a refusal, as `BadSignature { part: 2, fault: WrongRoot }` or `Decode(Short { place: 3 })` | they don't |
//! | `Unreadable` | the line isn't hex |
//!
//! With the word `back` the bytes that spell an accepted message follow its kind. A first line that names no fabric is answered
//! `Unreadable`, and one beyond the limits of a fabric `OutOfLimits`; then nothing else is answered.
//!
//! Modules: `unanswered` has the reasons for no answer, `fabric` the first line, `keys` the keys of a seed, and
//! `answers` the answers to messages.
#![tactic(auto)]

use crate::fabric::read_fabric;
use crate::unanswered::Unanswered;
use std::alloc::AllocError;
use std::env;
use std::io::{BufRead, BufReader};

mod answers;
mod fabric;
mod keys;
mod unanswered;

fn main(rt: HostRuntime) -> anyhow::Result<()> {
    let words: Vec<String> = env::args(&rt)?.collect(rt.alloc())?;
    let back = match words.as_slice() {
        [_] => false,
        [_, word] if word.as_str() == "back" => true,
        _ => anyhow::bail!("usage: message_check [back]"),
    };
    let mut lines = BufReader::new(rt.alloc(), rt.reader())?.lines(rt.alloc());
    let Some(first) = lines.next() else {
        return Ok(());
    };
    let fabric = match read_fabric(rt.alloc(), first?.as_str()) {
        Ok(fabric) => fabric,
        Err(Unanswered::NoMemory) => return Err(AllocError.into()),
        Err(fault) => {
            println!(rt; "{fault:?}")?;
            return Ok(());
        }
    };
    for line in lines {
        let answer = answers::answer(rt.alloc(), &fabric, back, line?.as_str())?;
        println!(rt; "{answer}")?;
    }
    Ok(())
}
