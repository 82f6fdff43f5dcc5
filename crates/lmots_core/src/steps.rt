//! One step of four chains at once, of one leaf or of four (RFC 8554, sections 4.3, 4.5 and 4.6, and
//! appendix A).
//!
//! A value of a chain is eight words, whose bytes are the 32 that the standard hashes. They stand behind
//! 23 bytes in the block of a step, so that a word of the block has three bytes of one word of the value
//! and one of the next.
ghost use Rattle.std.specs.Prelude.{◌≡◌, ℕ, ◌+◌, ◌/◌, ◌^◌, ◌<◌, ◌≤◌, slice_index};
ghost use Rattle.sha2.specs.Sha256.{add32, word_at, digest_bytes, padded_message};
ghost use Rattle.sha_lanes.specs.Lanes.{quad, lane, vector, HaveBlocks};
ghost use Rattle.lmots_core.specs.Chains.{chain_step};
ghost use Rattle.lmots_core.specs.Running.{three_and_one, head_word, step_message};

use sha_lanes::{hash_lanes, hash4};
use std::simd::prelude::*;

// A bit 1, which ends the 55 bytes of a step, and their length in bits; between the two stand zeros.
pub(crate) const END_MARK: u32 = 0x8000_0000;

const STEP_BITS: u32 = 440;

// Word `at` of four values.
#[inline(always)]
fn column(values: &[[u32; 8]; 4], at: usize) -> u32x4
    requires { at < 8 }
    ensures { result ≡ quad (λ k. slice_index (vector values.now k) at) }
{
    u32x4::from_array([values[0][at], values[1][at], values[2][at], values[3][at]])
}

// Words of which each has the last three bytes of `x` and the first of `y`.
#[inline(always)]
fn straddled(x: u32x4, y: u32x4) -> u32x4
    ensures { result ≡ quad (λ k. three_and_one (slice_index x k) (slice_index y k)) }
{
    (x << u32x4::splat(8)) + (y >> u32x4::splat(24))
}

// The word that begins with the number of a chain and a place, before the first byte of a word `x` is
// added to it.
#[inline(always)]
fn number(i: u16, j: u8) -> u32
    ensures { (x : ℕ) → x < 2 ^ 32 → add32 result (x / 2 ^ 24) ≡ head_word i j x }
{
    u32::from(i) * 0x1_0000 + u32::from(j) * 0x100
}

// The words that begin with the numbers of four chains and their places, in front of the first bytes of
// the words `first`.
#[inline(always)]
fn heads(chains: [u16; 4], places: [u8; 4], first: u32x4) -> u32x4
    ensures { result ≡ quad (λ k. head_word (slice_index chains k) (slice_index places k) (slice_index first k)) }
{
    u32x4::from_array([
        number(chains[0], places[0]),
        number(chains[1], places[1]),
        number(chains[2], places[2]),
        number(chains[3], places[3]),
    ]) + (first >> u32x4::splat(24))
}

// The word at byte `at` of the identifier, in each lane.
#[inline(always)]
pub(crate) fn id_words(id: &[u8; 16], at: usize) -> u32x4
    requires { at + 4 ≤ 16 }
    ensures { result ≡ quad (λ _. word_at id.now at) }
{
    u32x4::splat(u32::from_be_bytes([id[at], id[at + 1], id[at + 2], id[at + 3]]))
}

// The blocks of one step of four chains, word by word: 55 bytes each, with their padding. Lane `k` of
// `leaves` has the number of the leaf of chain `chains[k]`, and lane `k` of `values` its value, which stands
// at place `places[k]`.
#[inline(always)]
fn step_words(
    id: &[u8; 16],
    leaves: u32x4,
    chains: [u16; 4],
    places: [u8; 4],
    values: &[u32x4; 8],
) -> [u32x4; 16]
    ensures { HaveBlocks result (λ k. padded_message (step_message id.now (slice_index leaves k) (slice_index chains k) (slice_index places k) (digest_bytes (lane values.now k) 8))) }
{
    [
        id_words(id, 0),
        id_words(id, 4),
        id_words(id, 8),
        id_words(id, 12),
        leaves,
        heads(chains, places, values[0]),
        straddled(values[0], values[1]),
        straddled(values[1], values[2]),
        straddled(values[2], values[3]),
        straddled(values[3], values[4]),
        straddled(values[4], values[5]),
        straddled(values[5], values[6]),
        straddled(values[6], values[7]),
        straddled(values[7], u32x4::splat(END_MARK)),
        u32x4::splat(0),
        u32x4::splat(STEP_BITS),
    ]
}

// Four values, word by word.
#[inline(always)]
fn columns(values: &[[u32; 8]; 4]) -> [u32x4; 8]
    ensures { (k : ℕ) → k < 4 → digest_bytes (lane result k) 8 ≡ digest_bytes (vector values.now k) 8 }
{
    [
        column(values, 0),
        column(values, 1),
        column(values, 2),
        column(values, 3),
        column(values, 4),
        column(values, 5),
        column(values, 6),
        column(values, 7),
    ]
}

// One step of four chains of leaf `q`: chain `chains[k]` has `values[k]` at place `places[k]`.
pub(crate) fn step4(
    id: &[u8; 16],
    q: u32,
    chains: [u16; 4],
    places: [u8; 4],
    values: &[[u32; 8]; 4],
) -> [[u32; 8]; 4]
    ensures { (k : ℕ) → k < 4 → digest_bytes (vector result k) 8 ≡ chain_step id.now q (slice_index chains k) (slice_index places k) (digest_bytes (vector values.now k) 8) }
{
    hash4(&step_words(id, u32x4::splat(q), chains, places, &columns(values)))
}

// One step of chain `i` of four leaves, from place `j`: lane `k` of `leaves` has a leaf's number, and lane
// `k` of `values` the value of its chain.
pub(crate) fn step_leaves(
    id: &[u8; 16],
    leaves: u32x4,
    i: u16,
    j: u8,
    values: &[u32x4; 8],
) -> [u32x4; 8]
    ensures { (k : ℕ) → k < 4 → digest_bytes (lane result k) 8 ≡ chain_step id.now (slice_index leaves k) i j (digest_bytes (lane values.now k) 8) }
{
    hash_lanes(&step_words(id, leaves, [i, i, i, i], [j, j, j, j], values))
}
