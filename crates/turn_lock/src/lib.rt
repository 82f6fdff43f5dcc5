//! A lock round one machine, which workers call in turns, with the one history of all that it did (ours).
//!
//! - A [`Machine`] answers calls and keeps a journal. [`turn`] puts one whose journal is empty into a [`Turn`], which workers share by reference, and
//!   gives the first [`Pass`], which has every seat number.
//! - [`Turn::split`] cuts a pass in two, so that each worker has one of its own. [`Turn::may_split`] tells whether it can be cut.
//! - [`Turn::act`] makes one call and waits for nobody: where another seat has the machine it answers [`Busy`], with the call. [`Turn::act_until`]
//!   waits until the machine is free. [`Turn::count`] tells how many entries there are.
//! - [`Turn::join`] puts two passes together, and [`Turn::close`] takes the turn apart with the pass that has every number
//!   ([`Turn::has_every`]), and gives the machine back.
//!
//! The history is the machine's journal, each entry with the seat number that it was made under. A contract sees of a pass what it has seen,
//! which is a beginning of the one history, and its own entries, which all stand in that. Each act that makes an entry adds it to both, and
//! nothing else does; a join keeps both; and at the end what the pass with every number has seen is its own entries, and the journal. So each
//! step stands in the one history once, and no write is dropped, whatever the threads did between.
//!
//! A caller, with a machine of its own, `Counter`, whose calls are steps:
//!
//! ```
//! let (turn, mut own) = match turn(alloc, Counter::new(alloc), 2) {
//!     Ok(made) => made,
//!     Err((refused, _counter)) => return Err(refused),
//! };
//! let mut other = turn.split(&mut own);
//! let _first = turn.act(&mut own, Step { worker: 1, number: 0 });
//! let _second = turn.act(&mut other, Step { worker: 2, number: 0 });
//! turn.join(&mut own, other);
//! Ok(turn.close(own).into_steps())
//! ```
//!
//! `Turn` is a table of `atomic_table` with one slot, the machine, and two words, the mark of the seat that has it and the number of entries. An act
//! claims the mark, takes the machine out, calls it, puts it back, records the entry, and lets go. No step takes memory.
//!
//! The modules: `machine` is what a turn is put round, `known` what a pass knows, `lock` has the types, `opening` and `closing` the ends of a
//! turn, `acts` its calls and `sharing` its passes. `claims` has the steps of a call, `rule` what they keep, `numbers` sets of seat numbers, and
//! `crossing` that the types cross threads. Of the lemmas `Joining`, `SeatRows` and `Histories` serve callers: that going on is transitive
//! (`goes_on`), and that who has the parts of a pass has its numbers (`among_parts`, `among_all`).
#![tactic(auto)]

mod acts;
mod claims;
mod closing;
mod crossing;
mod known;
mod lock;
mod machine;
mod numbers;
mod opening;
mod rule;
mod sharing;

pub use known::{Known, Part};
pub use lock::{Busy, Pass, Turn};
pub use machine::Machine;
pub use opening::turn;
pub use std::alloc::AllocError as NoMemory;
