//! Messages as bytes: the one way in which a message is spelled, and whether it has any.
//!
//! [`encode`] gives the spelling of a message and [`content`] what its signer signs; the `put_.._content` functions append what is
//! signed of a statement inside a message, so that a signature is checked without making a message of it. [`fits`] tells whether a
//! message has a spelling, and [`batch_digest`] is SHA-256 of a batch's spelling; these two take no memory. A number stands high byte
//! first, in as many bytes as its field has; a list is its count and its items; a signed spelling ends with its seal, the length of the
//! signature and the signature: [`put_seal_front`] writes the length for who signs what is already spelled.
//!
//! `script_keys` signs what a client asks for so:
//!
//! ```text
//! let mut content = Vec::new(alloc);
//! put_request_content(&mut content, &request)?;
//! request.sig = sign_leaf(alloc, key, wish.stamp - 1, &content)?;
//! ```
//!
//! and spells it as a message, once `fits` is known of it:
//!
//! ```text
//! let message = Message::Request(request.duplicate()?);
//! encode(alloc, &message)
//! ```
//!
//! What the spelling is, and what fits, stands in the definitions of `fab_rules` (`Spelling`, `Format`, `Digests`), and each function here
//! equals them. Code is written once for all three uses of a spelling: whatever is spelled goes to a [`Writer`](writers::Writer), which
//! holds the bytes, or hashes them, or counts them. `specs/Pieces` says what a writer gains.
//!
//! Modules: `writers`, `tags` and `fields`; `spelled` (the traits of what stands in lists, and those lists); then from the small to the
//! whole `requests`, `votes`, `certificates`, `changes`, `notes`, `pleas` and `messages`. Each has the tests and the writing of its kinds,
//! what is signed apart from the signature. `contents` and `digests` are what others call.
//!
//! A line that only reads a field, as `let _stamp = self.stamp;`, stands for the proof alone: what is read is within its type.
//!
//! `proofs/Lengths` bounds the length of every spelling: only a new view of ten changes may be too long for a message.
#![tactic(auto)]

mod certificates;
mod changes;
mod contents;
mod digests;
mod fields;
mod messages;
mod notes;
mod pleas;
mod requests;
mod spelled;
mod tags;
mod votes;
mod writers;

pub use contents::{
    put_checkpoint_content, put_commit_content, put_prepare_content, put_request_content,
    put_seal_front, put_view_change_content,
};
pub use digests::batch_digest;
pub use messages::{content, encode, fits};
