//! The Checkpoints of the members of a cluster (Castro and Liskov's PBFT, section 4.3): which rounds are stable, and the proof of it.
//!
//! A replica says a Checkpoint of a round, with the digest of its ledger after it. A round is stable once a quorum of the members has
//! said the same digest; what lies behind a stable round may be let go, and the Checkpoints that say so are the proof for others.
//!
//! - `stable_votes(alloc, n)` makes the book of a cluster of `n` members, at low mark 0. Of the later calls `vote` takes memory for a
//!   Checkpoint that counts, and `proof` for its copies.
//! - `vote` hears a Checkpoint, the own ones too, and answers by a `Take`: `Old`, `Twice`, `Conflict` or `Taken`, the first of these that
//!   holds. The Checkpoints of one member for one round count once, by the first.
//! - `stable` gives the digest with which a round is stable, `proof` the Checkpoints that show it.
//! - `prune` moves the low mark up and lets go what lies behind it. `low` is the mark.
//!
//! What a contract sees is a `Checkpoints` (`specs/Checkpoints.antt`), and each call is a function of it. Rounds may be any: what bounds
//! them, and so the memory, is the caller's. Signatures aren't looked at.
//!
//! Modules: `book` has `StableBook` and the calls, `making` the constructor, `laws` what the words mean.
#![tactic(auto)]

mod book;
mod laws;
mod making;

pub use book::StableBook;
pub use fab_base::NoMemory;
pub use laws::{kept_law, proof_law, pruned_law, stable_law};
pub use making::stable_votes;
