//! Drives the ordering of a cluster of one replica through many batches, with nothing beside it, so that it can be measured what it keeps:
//! `bench/order_heap.sh` looks at the heap.
//!
//! Each line of standard input is a number of batches, at most 4,294,967,295, and begins anew. A batch has one request. What the replica
//! puts it hears again, signed by nobody; a batch that is committed is told as executed, and Checkpoints bear zeros. The window has 16 slots,
//! and there is a Checkpoint each 8 rounds.
//!
//! The answer is `rounds N low L`: how many rounds were executed, and the low mark; or `unreadable`, where the line is no such number.
//!
//! Modules: `alone` has the replica, and `batches` the requests and what they come to.
#![tactic(auto)]

mod alone;
mod batches;

use alone::Alone;
use std::io;

fn main(rt: HostRuntime) -> io::Result<()> {
    let alloc = rt.alloc();
    for line in rt.lines(alloc) {
        match line?.parse() {
            Ok(count) => {
                let mut alone = Alone::new(alloc)?;
                for stamp in 1..=count {
                    alone.batch(stamp)?;
                }
                let (rounds, low) = (alone.rounds(), alone.low());
                println!(rt; "rounds {rounds} low {low}")?;
            }
            Err(_) => println!(rt; "unreadable")?,
        }
    }
    Ok(())
}
