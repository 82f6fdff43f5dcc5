//! Reads cases of the small parts of a replica, and writes what they answer: the choice of a new view (`view_change`), who receives a
//! share (`geo_share`), and what comes of pleas (`remote_view`). Each line of standard input is a comment, a remark or a case of words
//! with one space between them. A remark begins with `#` and is written as it stands; each case is answered by one line.
//!
//! | Case | Answer |
//! |---|---|
//! | `view NUMBER` | begins a new view of a cluster of four, of which nothing is known |
//! | `certificate SLOT VIEW BATCH` | a prepared certificate for the next change, of a batch of this name |
//! | `change MEMBER LOW` | a member's change, with the certificates since the last one: what it lists |
//! | `choose` | the base and the top of the new view |
//! | `chosen SLOT` | the name of the batch that is chosen for the slot, or `the null batch` |
//! | `fabric SIZE ..` | begins a fabric of clusters of these sizes |
//! | `receivers ROUNDS` | how often each member of cluster 1 receives in the rounds from 1 on, and whether each is told so |
//! | `replica ID` | begins to listen as this replica of the fabric, as 1.0 |
//! | `drvc ID TARGET ROUND COUNT` | the replica hears this Drvc: what comes of it |
//! | `rvc ID TARGET ROUND COUNT` | the replica hears this Rvc: what comes of it |
//! | `say TARGET ROUND` | the replica says a Drvc: the count that it says it with, or that it said it before |
//! | `count TARGET ROUND` | the present count for the target, and whether the replica said its Drvc of the round |
//!
//! A line that is none of these, or that the fabric doesn't allow, is answered `unreadable`.
#![tactic(auto)]

use std::io;
use std::io::{BufRead, BufReader};

mod desk;
mod fabric;
mod listening;
mod receiving;
mod views;
mod words;

fn main(rt: HostRuntime) -> io::Result<()> {
    let mut desk = desk::Desk::new(rt.alloc());
    for line in BufReader::new(rt.alloc(), rt.reader())?.lines(rt.alloc()) {
        let answer = desk.answer(line?.as_str())?;
        println!(rt; "{answer}")?;
    }
    Ok(())
}
