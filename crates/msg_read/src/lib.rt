//! Bytes read as a message.
//!
//! [`decode`] gives the message that the bytes spell, or the first fault that a reader meets from the left, with its place. It is the
//! only way in: above it nobody looks at bytes again. How messages are spelled, and within which ranges, counts and lengths they have
//! a spelling, stands in fab_rules; `decode` reads just what is spelled so. Which fault comes first is a function on lists of bytes,
//! `reading_of` of `specs/Reading`, which goes through the kinds as the format has them. Its readers are made of smaller ones (the
//! words of `specs/Steps`), down to the fields (`specs/Fields`), and the code has a method for each.
//!
//! `bft_verify` lets bytes in so, and answers a fault by its own name for it:
//!
//! ```text
//! let message = decode(alloc, bytes)?;
//! admit(alloc, members, ring, message)
//! ```
//!
//! [`spelling_law`] says what spellings are: none begins another, and equal bytes are equal messages, equal contents equal statements.
//! It holds of every reader that is made so (`IsRead` of `proofs/Readers`: what is read is spelled so, and what is spelled so is read).
//!
//! The bytes are gone over once. Memory is taken for what was read: for a key, a value or a signature once all its bytes are there,
//! for a list item by item, once its count was judged. Lists stand in lists three deep at most, and nothing calls itself.
//!
//! Modules: `decoding` has `decode`, `laws` the law, `faults` why bytes were not decoded; `cursor` has where reading stands and the
//! fields, `listed` the one loop that reads every list, `requests`, `votes`, `changes` and `notes` the kinds, and `kinds` the choice among
//! them by the tag.
#![tactic(auto)]

mod changes;
mod cursor;
mod decoding;
mod faults;
mod kinds;
mod laws;
mod listed;
mod notes;
mod requests;
mod votes;

pub use decoding::decode;
pub use faults::DecodeFault;
pub use laws::spelling_law;
