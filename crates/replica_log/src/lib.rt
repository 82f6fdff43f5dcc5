//! A correct replica in a run: a core that keeps its journal, its clock and its signer. Nothing of what it sends is lost or repeated.
//!
//! - [`replica_log`] makes a [`ReplicaLog`], which has done nothing. It is a [`Party`](run_words::Party), and its calls are that trait's: an act
//!   makes the entry that the replica's machine makes after the journal, and what is left behind at the end is the trace of the journal.
//! - [`replay`] makes the core that a replica has after a journal, and [`replayed`] the one of the replica that left a trace. Which traces
//!   can be replayed is `IsReplayable` (`specs/Replayed`).
//!
//! It knows no clock but its own (Lamport's), no socket and no thread: what it sends is a list of parcels. Where memory is refused in the
//! middle of an act the journal stays and the log is shut, so each later act answers `NoMemory`. Emit takes all its memory before the
//! signer uses a leaf, and leaves the log open.
//!
//! Contracts see a [`ReplicaLog`] as a `Log` (`specs/Logs`); what holds of all that it keeps is `specs/Keeping`. Journals, entries and what
//! is told of them are those of `run_words`: this crate defines none of its own. Parcels, their numbers and the clock after a hearing are
//! made by `parcel_post`.
//!
//! The modules: `logs` has the type, `making` makes one, and `party` has its calls. `keepers` is what a log keeps. `acting` says which act goes
//! where, and `asking` whether it would make an entry; `hearing` is Hear, `moving` is what the core does of its own accord
//! (Batch, Nudge, Execute, Checkpoint and Timeout), `sending` is Emit, and `entering` is one step of the core with its entry. `leaving` is the trace.
//! `replaying` replays a journal.
#![tactic(auto)]

mod acting;
mod asking;
mod entering;
mod hearing;
mod keepers;
mod leaving;
mod logs;
mod making;
mod moving;
mod party;
mod replaying;
mod sending;

pub use logs::ReplicaLog;
pub use making::replica_log;
pub use replaying::{replay, replayed};
