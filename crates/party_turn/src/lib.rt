//! A replica as the machine of a turn (ours): workers call it one at a time, and the one history of all that it did is a journal that the
//! replica keeps.
//!
//! - [`Acting`] is a party of `run_words` as a [`Machine`](turn_lock::Machine): its call is an act, its entries are those of the journal,
//!   and it answers by an [`Answered`], what the party told and how many entries there are after it. It remembers what it was made with, so
//!   that each clause of the turn speaks of that. It needs nothing of the party but what the trait has.
//! - [`leave`] closes a turn whose passes were joined. The trace that comes is that of the turn's history, and is `Kept`: the journal is one
//!   that the replica's machine makes, each message in it is sound, and the rest of the trace is read off the journal. That is all that a
//!   proof of safety asks of a trace, so no fact of queues, links or the order of threads is needed for it.
//! - [`history_law`] says why: whatever the threads did, a legal history without its seats is such a journal.
//!
//! A caller, with a party of its own and two workers:
//!
//! ```
//! let (turn, mut own) = match turn(alloc, Acting::new(party), 2) {
//!     Ok(made) => made,
//!     Err((refused, _machine)) => return Err(refused),
//! };
//! let mut sending = turn.split(&mut own);
//! let _heard = turn.act(&mut own, Act::Hear(origin, message));
//! let _sent = turn.act(&mut sending, Act::Emit);
//! turn.join(&mut own, sending);
//! let trace = leave(turn, own)?;
//! ```
//!
//! The modules: `acting` has the machine, `answered` what it answers, `leaving` the end of a turn, and `laws` the law. Of the lemmas `Entering`
//! serves the laws above: an act that enters something enters what the machine makes.
#![tactic(auto)]

mod acting;
mod answered;
mod laws;
mod leaving;

pub use acting::Acting;
pub use answered::Answered;
pub use fab_base::NoMemory;
pub use laws::history_law;
pub use leaving::leave;
