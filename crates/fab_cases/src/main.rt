//! Cases of the small crates, as data: each line of standard input is a question, and is answered on a line of its own behind
//! ` => `. A line that is empty or begins with `#` is passed on as it stands, so that questions and answers read as one text.
//!
//! The contracts of those crates say what each call answers. What they can't say is shown here: that the calls which take memory
//! succeed where there is enough, and that the contracts mean what a person expects of examples that were worked by hand. The
//! expected answers stand in `stdout`.
//!
//! The first word of a question names the part that is asked, the second what is asked, and the others are numbers or texts. Each
//! part has a file: `quorum` and `members` (sizes of quorums, who takes part), `list` and `copy` (lists, and copies of every kind of
//! message), `tally` (vote_certs), `slots` (pbft_slots) and `table` (seq_table). A tally, the slots and a table stay as the last
//! question left them, until `new` begins them again. A question that is none of these, or breaks a condition of the call, is
//! answered `unreadable`.
#![tactic(auto)]

mod copies;
mod counting;
mod desk;
mod lists;
mod members;
mod messages;
mod quorums;
mod slots;
mod tables;
mod words;

use desk::Desk;
use std::io;

fn main(rt: HostRuntime) -> io::Result<()> {
    let alloc = rt.alloc();
    let mut desk = Desk::new(alloc)?;
    for line in rt.lines(alloc) {
        let line = line?;
        if line.is_empty() || line.starts_with('#') {
            println!(rt; "{line}")?;
        } else {
            let answer = desk.answer(alloc, line.as_str())?;
            println!(rt; "{line} => {answer}")?;
        }
    }
    Ok(())
}
