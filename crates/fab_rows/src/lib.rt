//! The lists that messages, answers and devices hold, and exact copies.
//!
//! [`Rows`] is the one list type of the fabric: a contract sees it as the list of its items, so that a whole message is plain data
//! there and `≡` is equality of contents. [`Bytes`], [`Numbers`] and [`Entries`] are the lists that have names of their own.
//! [`Duplicate`] copies a value exactly, at the price of memory; a list of bytes is copied in one piece.
//!
//! This crate stands on nothing, so that a device or a signature, which need a list of bytes and no message, stand on it alone.
#![tactic(auto)]

mod duplicate;
mod rows;

pub use duplicate::Duplicate;
pub use rows::{Bytes, Entries, Numbers, Rows};
pub use std::alloc::AllocError as NoMemory;
