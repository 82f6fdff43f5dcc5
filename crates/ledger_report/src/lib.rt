//! The text of a report.
//!
//! [`report`] writes what a run left: each correct replica's ledger and how the others are faulty, the longest ledger's blocks with what
//! their requests came to, the table, and how the run ended. The lines of requests and of the table serve other reports too:
//! [`push_replies`], [`push_table`], [`push_done`]. The words are `specs/Text` and `specs/Report`.
//!
//! - `reporting`: the whole report, put together.
//! - `text`: bytes and numbers, the lines of replies and of the table, and the last line of a report in which all is done.
//! - `lines`: the first line, the line of a ledger, that of a faulty replica, and how the run ended.
//! - `ledgers`: each correct replica's ledger, replayed, and which of them is the longest.
//! - `notes`: which notes correct replicas sent of a block.
//! - `blocks`: the lines of a ledger's blocks, whose requests are applied anew.
//! - `runs`: the run of the longest ledger, blocks and table.
//! - `laws`: that the ledgers printed are those of the run's world.
#![tactic(auto)]

mod blocks;
mod laws;
mod ledgers;
mod lines;
mod notes;
mod reporting;
mod runs;
mod text;

pub use laws::report_law;
pub use reporting::report;
pub use text::{push_done, push_replies, push_table};
