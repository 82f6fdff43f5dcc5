//! Messages as bytes, and whether they are well formed.
//!
//! [`decode`] reads a message from bytes and [`encode`] writes it; [`content`] is what its signer signs, and [`fits`] tells whether it
//! has a spelling. [`batch_digest`] is the digest of a batch. [`shape`] looks whether a message that has a spelling is well formed for
//! the members: a [`Shaped`] is a message of which that is known, and whoever takes one needs to look at no field, list or certificate
//! of it again, since its type keeps it. What is wrong with a message, and in which order it is answered, stands in fab_rules
//! (`Shape`); the first [`Misfit`] comes back with the message.
//!
//! The parts of a message are the message itself, number 0, and every statement inside it, at any depth, in the order of their first
//! bytes. [`walk`] goes over them in that order, and stops at the first fault; what it asks of a part is a [`Check`]. Both passes of
//! `shape` are such questions. [`judge_parts`] hands each part that somebody signed to a [`Judge`]: its number, its signer, what was
//! signed, and the signature. Whoever looks at signatures, or at who said what, is one. [`signer`], [`signature`] and
//! [`with_signature`] speak of the message itself alone. No call here but `decode`, `encode`, `content` and `judge_parts` takes memory.
//!
//! `bft_verify` looks at a message that was read, first at its shape and then at the signatures of its parts:
//!
//! ```text
//! let shaped = match shape(members, message) {
//!     Ok(shaped) => shaped,
//!     Err((misfit, _message)) => return Err(Refusal::from(misfit)),
//! };
//! judge_parts(alloc, &Signatures { ring }, shaped.message())?;
//! Ok(Verified::new(shaped, ring.share()?))
//! ```
//!
//! Modules: `check` has the question, `listings` the lists inside a message, `walking` the walk; `strangers` is the first pass and
//! `misfits` the second, of which `numbers`, `rules` and `certificates` have the tests; `shaping` is the whole look, and `shaped` what
//! comes of it. `judging` is the walk over the signed parts, and `signing` has a message's signer and signature.
#![tactic(auto)]

mod certificates;
mod check;
mod judging;
mod listings;
mod misfits;
mod numbers;
mod rules;
mod shaped;
mod shaping;
mod signing;
mod strangers;
mod walking;

pub use check::Check;
pub use fab_rules::Misfit;
pub use judging::{Judge, judge_parts};
pub use msg_read::{DecodeFault, decode};
pub use msg_spell::{batch_digest, content, encode, fits, put_seal_front};
pub use shaped::Shaped;
pub use shaping::shape;
pub use signing::{signature, signer, with_signature};
pub use walking::walk;
