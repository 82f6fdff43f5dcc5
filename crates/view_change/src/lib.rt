//! A change of view (PBFT, section 4.4): what a replica reports when it asks for a view, and what a new view decides.
//!
//! - To ask for a view, `build(alloc, me, view, low, &proof, &prepared)` lists what is given: the low mark, its proof, and the
//!   prepared certificates of slots above it. The signature is left empty, for the caller to fill in.
//! - The primary of the view shows the changes of a quorum in a `NewView`. Each member that hears one computes what it decides:
//!   `choose(&new_view)` gives `base`, up to which slots are closed, and `top`, the last slot that is decided.
//! - `chosen(&new_view, slot)` gives the batch of a slot above the base, up to the top, and `None` for the null batch. Slots above
//!   the top are the new primary's to fill.
//!
//! `choose` and `chosen` are one pass each over the certificates, and take no memory. They look at low marks, slots and views alone,
//! and judge nothing: whether a new view is worth anything is a matter of its shape and its signatures. What they find are the words
//! `base`, `top`, `deciding` and `chosen` of fab_rules, maxima over all certificates; its `choice_law` says what those are worth.
#![tactic(auto)]

mod building;
mod choosing;

pub use building::build;
pub use choosing::{Choice, choose, chosen};
pub use fab_base::NoMemory;
