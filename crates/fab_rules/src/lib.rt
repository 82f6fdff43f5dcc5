//! What replicas owe: the definitions from which the laws of the ledger are proved, and which every handler's contract cites.
//!
//! Nothing here runs. The definitions stand in `specs/`, one idea a file, and read from the bottom up:
//!
//! - `Spelling`, `Format`: the bytes of a message, and the limits within which it has any. `Digests`: the digest of a batch.
//! - `Statements`: the parts of a message in order, who signs which, what is signed, and the batches in it.
//! - `Choice`: what a new view decides (base, top, and the chosen batch of each slot), as maxima over all its certificates.
//! - `Shape`: what is wrong with a message, as a numbered list of misfits in the order in which they are answered. `Quoted`: what the
//!   laws take of a message in which nothing is wrong.
//! - `Ledger`: the chain of a ledger, and its run through the sequential table.
//! - `Diary`, `Rules`: what a replica heard, said and did, and the rules that an honest one keeps.
//! - `Growth`: diaries that grow.
//!
//! There is no slot table, tally, queue or lock in them, and no word of how a replica comes to keep its rules. Signatures are a field
//! that nothing here judges.
//!
//! The laws here are about the definitions alone: `choice_law` (the choice is what it says, and one pass finds it), `shape_law` (what
//! no misfit means) and `rules_stay_kept_law` (what may be said may still be said once more was heard or done). Worlds of many diaries
//! and the laws of agreement stand in `world_laws`.
#![tactic(auto)]

mod blocks;
mod choice;
mod growth;
mod misfits;
mod shape;

pub use blocks::{Block, Blocks};
pub use choice::choice_law;
pub use growth::rules_stay_kept_law;
pub use misfits::Misfit;
pub use shape::shape_law;
