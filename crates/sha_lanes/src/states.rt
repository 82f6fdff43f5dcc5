//! Hash values of four messages side by side: where they begin, after one block more of each, and as
//! bytes (FIPS 180-4, sections 5.3.3 and 6.2.2).
ghost use Rattle.std.specs.Prelude.{◌≡◌, ℕ, List, ◌<◌};
ghost use Rattle.sha2.specs.Sha256.{compress, digest_bytes, initial_hash_256};
ghost use Rattle.sha_lanes.specs.Lanes.{lane, vector, HaveBlocks};

use crate::block::compress;
use crate::digests::digest_of;
use std::simd::prelude::*;

// H(0), the initial hash value (section 5.3.3).
const IV: [u32; 8] = [
    0x6a09e667, 0xbb67ae85, 0x3c6ef372, 0xa54ff53a, 0x510e527f, 0x9b05688c, 0x1f83d9ab, 0x5be0cd19,
];

// The hash value in lane `k`.
#[inline(always)]
pub(crate) fn row(v: &[u32x4; 8], k: usize) -> [u32; 8]
    requires { k < 4 }
    ensures { result ≡ lane v.now k }
{
    [
        v[0].to_array()[k],
        v[1].to_array()[k],
        v[2].to_array()[k],
        v[3].to_array()[k],
        v[4].to_array()[k],
        v[5].to_array()[k],
        v[6].to_array()[k],
        v[7].to_array()[k],
    ]
}

/// The initial hash value in each lane (FIPS 180-4, section 5.3.3). Vector `j` of a hash value in lanes
/// has word `j` of each message's.
#[inline(always)]
pub fn initial4() -> [u32x4; 8]
    ensures { (i : ℕ) → i < 4 → lane result i ≡ initial_hash_256 }
{
    [
        u32x4::splat(IV[0]),
        u32x4::splat(IV[1]),
        u32x4::splat(IV[2]),
        u32x4::splat(IV[3]),
        u32x4::splat(IV[4]),
        u32x4::splat(IV[5]),
        u32x4::splat(IV[6]),
        u32x4::splat(IV[7]),
    ]
}

/// The hash values after one block more of each message (FIPS 180-4, section 6.2.2). Vector `t` of `words`
/// has word `t` of each block in its lane (section 5.2.1). Where lane `i` of `state` is the hash value
/// after the first n blocks of a padded message and block `i` is the one behind them, lane `i` of the
/// result is the hash value after n + 1.
#[inline(never)]
pub fn absorb4(state: &[u32x4; 8], words: &[u32x4; 16]) -> [u32x4; 8]
    ensures { (b : ℕ → List ℕ) → HaveBlocks words.now b → (i : ℕ) → i < 4 → lane result i ≡ compress (lane state.now i) (b i) }
{
    compress::<2>(state, words)
}

/// The digests that four hash values are: row `i` has the 32 bytes of lane `i`, each word's high byte
/// first (FIPS 180-4, section 6.2).
pub fn digests4(state: &[u32x4; 8]) -> [[u8; 32]; 4]
    ensures { (i : ℕ) → i < 4 → vector result i ≡ digest_bytes (lane state.now i) 8 }
{
    [
        digest_of(&row(state, 0)),
        digest_of(&row(state, 1)),
        digest_of(&row(state, 2)),
        digest_of(&row(state, 3)),
    ]
}
