//! Runs of replicas as pure folds: what a journal tells, how the one run of a script goes, and what is lawful of a run.
//!
//! A replica's *journal* is the list of the events that its machine took. Everything else about a replica follows from its journal and
//! from what it was made with; everything about a run follows from its journals and from what was refused. The definitions stand in
//! `specs/`, and read from the bottom up:
//!
//! - `Keyed`: lists of things that belong to replicas.
//! - `Journal`: what a party is made with (`Maker`), and what a journal tells: the replayed state of the machine of `fab_machine`, the
//!   diary of what was heard, said and done, the clock, the parcels, the signed contents, and which entry may come next.
//! - `Runs`: the one run of a script, step by step: a generator picks among the steps that can be made; where there is none, the replicas
//!   are nudged; where no nudge moves one, the run has ended.
//! - `Lawful`: what is lawful of a transcript, and what is settled, said of each trace alone and of copies that are counted between
//!   traces; and the laws.
//! - `Acts`: what an act of a party does to its journal, and what is told of it.
//! - `Examples`: the least run.
//!
//! Code has the types that the definitions name, and the trait [`Party`], which a run asks of a replica. Nothing here decides anything.
#![tactic(auto)]

mod ends;
mod laws;
mod logs;
mod making;
mod movers;
mod party;
mod passing;

pub use ends::{End, Evidence};
pub use fault_script::Fault;
pub use laws::{
    beside_law, clock_law, honest_law, one_schedule_law, parcel_law, reading_law, run_example,
    run_law, signing_law, told_law, twisted_law,
};
pub use logs::{
    Contents, Counts, Entry, Journal, Moment, Moments, Origin, Parcel, Parcels, Pending, Trace,
    Traces, Transcript, Turned, TurnedList,
};
pub use movers::Mover;
pub use party::{Act, Party, Told};
pub use passing::passes;
