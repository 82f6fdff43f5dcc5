//! Hash values of four messages of one block each (FIPS 180-4, sections 5 and 6.2).
ghost use Rattle.std.specs.Prelude.{◌≡◌, ℕ, List, ◌<◌, ◌≤◌, length};
ghost use Rattle.sha2.specs.Sha256.{compress, digest_bytes, initial_hash_256, padded_message, sha256};
ghost use Rattle.sha_lanes.specs.Lanes.{lane, vector, HaveBlocks};

use crate::block::compress;
use crate::states::{initial4, row};
use std::simd::prelude::*;

/// The hash values of four blocks, each hashed alone from the initial hash value (FIPS 180-4, section
/// 6.2.2). Vector `t` of `words` has word `t` of each block in its lane (section 5.2.1), and row `i` of
/// the result is the eight words of block `i`'s hash value. Where a block is a message of up to 55 bytes
/// with its padding (section 5.1.1), these are the words of the message's SHA-256, whose bytes
/// [`digest_of`](crate::digest_of) gives.
pub fn hash4(words: &[u32x4; 16]) -> [[u32; 8]; 4]
    ensures blocks { (b : ℕ → List ℕ) → HaveBlocks words.now b → (i : ℕ) → i < 4 → vector result i ≡ compress initial_hash_256 (b i) }
    ensures messages { (b m : ℕ → List ℕ) → HaveBlocks words.now b → (i : ℕ) → i < 4 → length (m i) ≤ 55 → b i ≡ padded_message (m i) → digest_bytes (vector result i) 8 ≡ sha256 (m i) }
{
    let v = compress::<0>(&initial4(), words);
    [row(&v, 0), row(&v, 1), row(&v, 2), row(&v, 3)]
}

/// The same hash values, left in the lanes: vector `j` has word `j` of each.
pub fn hash_lanes(words: &[u32x4; 16]) -> [u32x4; 8]
    ensures blocks { (b : ℕ → List ℕ) → HaveBlocks words.now b → (i : ℕ) → i < 4 → lane result i ≡ compress initial_hash_256 (b i) }
    ensures messages { (b m : ℕ → List ℕ) → HaveBlocks words.now b → (i : ℕ) → i < 4 → length (m i) ≤ 55 → b i ≡ padded_message (m i) → digest_bytes (lane result i) 8 ≡ sha256 (m i) }
{
    compress::<1>(&initial4(), words)
}
