//! How items go from one worker to another (ours): links, between two, and the stage queue, from any number of producers to one consumer. What is
//! taken was put, in each producer's order, as often as it was put.
//!
//! - [`link`] makes a link with its two ends, over `rtrb`. [`LinkIn::push`] and [`LinkOut::pop`] wait for nobody; where there is no room the item
//!   comes back in a [`Full`]. Who has both ends finds by [`beside`] how many items wait, and that what was popped and then these is what was
//!   pushed.
//! - [`stage_queue`] makes a [`StageQueue`], over `crossbeam_queue`, with the consumer's pass. [`StageQueue::split_pass`] gives a producer's,
//!   [`StageQueue::put`] puts by it, [`StageQueue::take`] takes by the consumer's, and [`StageQueue::join_pass`] joins a producer's into
//!   the consumer's.
//!
//! A producer knows what it put, the consumer what it took and of which producer. No clause compares what two threads know: that what was taken of a
//! producer is a beginning of what it put is said once its pass was joined (`TookStarts`), and that it is all of it where the queue was
//! empty after that (`TookAll`). The end of a run joins them all; in mid-run a producer can be joined and a new one split off in its place.
//!
//! Two callers:
//!
//! ```
//! let (mut sent, mut got) = link(alloc, 4)?;
//! let _full = sent.push(7);
//! let first = got.pop();
//! let waits = beside(&mut sent, &mut got);
//!
//! let (queue, mut taking) = stage_queue(alloc, 4)?;
//! let mut putting = queue.split_pass(&mut taking)?;
//! let _full = queue.put(rt, &mut putting, 7);
//! queue.join_pass(&mut taking, putting);
//! let next = queue.take(rt, &mut taking);
//! ```
//!
//! The modules: `links` and `full`; `queue` has the types of the queue, `opening` makes one, `calls` has its calls, `known` what a pass knows, and
//! `rule` what every step keeps. Of the lemmas `Keeping` has what an item more does to what was taken of a producer (`of_append`).
#![tactic(auto)]

mod calls;
mod full;
mod known;
mod links;
mod opening;
mod queue;
mod rule;

pub use full::Full;
pub use known::Known;
pub use links::{LinkIn, LinkOut, beside, link};
pub use opening::stage_queue;
pub use queue::{QueuePass, StageQueue};
pub use std::alloc::AllocError as NoMemory;
