//! SHA-256 (FIPS 180-4) of four messages side by side in the lanes of vectors.
//!
//! A vector of four words has one word of each message. All that a round does to a word is done to
//! the four at once, so that four messages want about half the instructions that they want one after
//! another.
//!
//! - [`hash4`] hashes four blocks, each of which is a message with its padding: up to 55 bytes. It takes
//!   and gives words, so that what is hashed again need not become bytes in between; [`hash_lanes`] leaves
//!   them in their lanes.
//! - [`initial4`], [`absorb4`] and [`digests4`] hash four longer messages, block by block. Whoever calls them
//!   lays out the blocks, with the padding.
//! - [`digest_of`] and [`words_of`] go from the words of a hash value to the bytes of a digest and back.
//!
//! Each lane equals a definition of `sha2`, which hashes everything else. No call here takes memory.
#![tactic(auto)]

mod block;
mod digests;
mod hashing;
mod states;
mod words;

pub use digests::{digest_of, words_of};
pub use hashing::{hash_lanes, hash4};
pub use states::{absorb4, digests4, initial4};
