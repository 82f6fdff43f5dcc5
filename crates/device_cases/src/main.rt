//! Drives devices as a text tells, and compares each answer with the one that the text expects.
//!
//! Standard input has a call in each line, and behind ` -> ` its answer; a line that begins with `#` is a comment. A device stays the
//! one that calls speak of until the next is made. Each answer that differs is printed, and at the end the number of those that don't.
//!
//! | Line | What it does |
//! |---|---|
//! | `source BYTES PIECE FAILING` | makes a source in memory of these bytes, which moves PIECE bytes a call and fails in that call (0: in none) |
//! | `sink ROOM PIECE FAILING` | makes a sink in memory likewise, which takes ROOM bytes in all |
//! | `reader TOLD`, `writer TOLD` | makes a source or sink of a reader or writer that answers as told: `.` for no byte, `!` for an error, else one byte |
//! | `read ROOM -> ANSWER` | a read into a room of so many bytes: the bytes, `end` or `failed` |
//! | `write BYTES -> ANSWER` | a write: the number of bytes taken, or `failed` |
//! | `taken -> BYTES` | what a sink in memory took, or `nothing` |
#![tactic(auto)]

mod bench;
mod told;

use bench::Bench;
use std::io;

fn main(rt: HostRuntime) -> io::Result<()> {
    let alloc = rt.alloc();
    let mut bench = Bench::new();
    let mut as_said = 0u64;
    for line in rt.lines(alloc) {
        let line = line?;
        if line.is_empty() || line.as_str().starts_with('#') {
            continue;
        }
        let (call, expected) = line
            .as_str()
            .split_once(" -> ")
            .unwrap_or((line.as_str(), "made"));
        let answer = bench.answer(alloc, call)?;
        if answer.as_str() == expected {
            as_said = as_said.saturating_add(1);
        } else {
            println!(rt; "{call}: {answer}, not {expected}")?;
        }
    }
    println!(rt; "{as_said} as said")?;
    Ok(())
}
