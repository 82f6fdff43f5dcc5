//! The sequential table: a finite map from keys to values, beside the stamp of each client's last request that took effect.
//!
//! A table is what the whole fabric is about: replicas agree on the order of requests so that each of them ends with the table that
//! one list of requests, applied one after another, gives. What that is stands in fab_base's `Table` (states, outcomes, runs); a
//! contract here says of a call that the state of the table, `state_of`, and the answers are those.
//!
//! - `table` makes an empty one; `apply` applies a request, `last`, `value` and `entries` read.
//! - `run` applies a batch whole: it answers what the requests come to, or that memory was refused, and then nothing has changed.
//! - `reserve` and `apply_batch` are its two halves, for a caller that makes more ready in between. `reserve` takes all the memory that
//!   the batch needs and holds the keys that it may write; `apply_batch` then applies the batch without taking memory, so it can't
//!   fail halfway. Several batches may be reserved before the first is applied.
//!
//! A caller, from `ledger_report`, which applies a ledger's blocks anew and writes the lines of each:
//!
//! ```text
//! for place in 0..rounds.ledger().len() {
//!     let block = block_at(rounds, clusters, place);
//!     let outcomes = table.run(&block.batch)?;
//!     push_block(text, told, block, &outcomes)?;
//! }
//! ```
//!
//! Keys are kept in an `IndexMap` in the order in which they came, each with a value or none. A key with none counts as absent, and no
//! key is ever taken out: a value written at a held key needs no memory, which is what `apply_batch` rests on.
//!
//! The modules: `book` has the type and its calls (`book/batches` those for batches), `making` makes one, `held` keeps the pairs
//! (`held/batches` the operations in memory that was taken before), `room` is that memory.
#![tactic(auto)]

mod book;
mod held;
mod making;
mod room;

pub use book::Table;
pub use fab_base::NoMemory;
pub use making::table;
pub use room::Room;
