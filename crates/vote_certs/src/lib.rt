//! Counting votes: of each sender the first value counts, and a certificate is the list of the first senders, by index, that agree.
//!
//! A `Tally` is made whole by `tally` for the 1 to `MOST_SENDERS` senders of a cluster, so nothing after it takes memory. `add` counts a value,
//! or says that its sender has one already. `cert` asks whether enough distinct senders gave a value, and names them. A contract
//! sees a tally as the list of the counted values, a place for each sender, and `Senders` as the list of indexes; who agrees on a
//! value is the word `senders_of`, and `senders_law` says what it means. How many are enough is for the caller to say: PBFT's
//! quorums are no matter of this crate.
//!
//! Modules: `equality` has the values' trait, `counting` the tally, `making` its constructor, `senders` the list that `cert` gives.
#![tactic(auto)]

mod counting;
mod equality;
mod making;
mod senders;

pub use counting::{Added, Tally, senders_law};
pub use equality::Exact;
pub use making::tally;
pub use senders::{MOST_SENDERS, Senders};
/// Memory was refused.
pub use std::alloc::AllocError as NoMemory;
