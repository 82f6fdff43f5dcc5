//! The public keys of four leaves, side by side (RFC 8554, section 4.3).
//!
//! Chain i of the four leaves runs in the four lanes, and its ends go into the hashes of the four keys
//! before chain i + 1 starts. The ends stand behind 22 bytes, so that a word of a block has two bytes of
//! one word of them and two of the next.
ghost use Rattle.std.specs.Prelude.{◌≡◌, ℕ, List, [], ◌∷◌, ◌++◌, ◌+◌, ◌*◌, ◌%◌, ◌<◌, length, slice_index, slice_index_or};
ghost use Rattle.std.specs.Int.{w32, to_be_bytes};
ghost use Rattle.sha2.specs.Sha256.{digest_bytes, initial_hash_256, sha256};
ghost use Rattle.sha_lanes.specs.Lanes.{quad, lane, vector};
ghost use Rattle.lmots_core.specs.Chains.{chain_end};
ghost use Rattle.lmots_core.specs.OneTime.{public_key};
ghost use Rattle.lmots_core.specs.Running.{two_and_two};
ghost use Rattle.lmots_core.specs.Abreast.{AreTaken, HoldMessages};

use crate::kind::OtsKind;
use crate::seed::OtsSeed;
use crate::steps::{END_MARK, id_words, step_leaves};
use sha_lanes::{absorb4, digests4, initial4, words_of};
use std::simd::prelude::*;

// D_PBLC, which marks the hash of a public key: two bytes.
const D_PBLC: u32 = 0x8080;

// Words of which each has the last two bytes of `x` and the first two of `y`.
#[inline(always)]
fn halves(x: u32x4, y: u32x4) -> u32x4
    ensures { result ≡ quad (λ k. two_and_two (slice_index x k) (slice_index y k)) }
{
    (x << u32x4::splat(16)) + (y >> u32x4::splat(16))
}

// Takes a word of each message: into the block that fills, and once it is full into the hash values. Gives
// how many words the block has then.
fn push(state: &mut [u32x4; 8], block: &mut [u32x4; 16], filled: usize, word: u32x4) -> usize
    requires { filled < 16 }
    ensures filled { result ≡ (filled + 1) % 16 }
    ensures taken { (m : ℕ → List ℕ) → AreTaken state.old block.old filled m → AreTaken state.new block.new result (λ k. m k ++ to_be_bytes w32 (slice_index word k)) }
{
    block[filled] = word;
    if filled < 15 {
        filled + 1
    } else {
        *state = absorb4(state, block);
        0
    }
}

// Begins the hashes of the keys of four leaves, up to the mark D_PBLC.
fn push_heads(
    state: &mut [u32x4; 8],
    block: &mut [u32x4; 16],
    id: &[u8; 16],
    leaves: u32x4,
) -> usize
    requires { (k : ℕ) → k < 4 → lane state.old k ≡ initial_hash_256 }
    ensures sized { length id.now ≡ 16 }
    ensures room { result < 16 }
    ensures held { HoldMessages state.new block.new result (quad (λ _. 0x8080)) (λ k. id.now ++ to_be_bytes w32 (slice_index leaves k) ++ 0x80 ∷ 0x80 ∷ []) }
{
    let filled = push(state, block, 0, id_words(id, 0));
    let filled = push(state, block, filled, id_words(id, 4));
    let filled = push(state, block, filled, id_words(id, 8));
    let filled = push(state, block, filled, id_words(id, 12));
    push(state, block, filled, leaves)
}

// Takes the ends of the next chain, lane by lane. The last two bytes of each message wait in `last`
// before, and in the last word of `ends` behind.
fn push_ends(
    state: &mut [u32x4; 8],
    block: &mut [u32x4; 16],
    filled: usize,
    last: u32x4,
    ends: &[u32x4; 8],
) -> usize
    requires { filled < 16 }
    ensures room { result < 16 }
    ensures held { (m : ℕ → List ℕ) → HoldMessages state.old block.old filled last m → HoldMessages state.new block.new result (vector ends.now 7) (λ k. m k ++ digest_bytes (lane ends.now k) 8) }
{
    let filled = push(state, block, filled, halves(last, ends[0]));
    let filled = push(state, block, filled, halves(ends[0], ends[1]));
    let filled = push(state, block, filled, halves(ends[1], ends[2]));
    let filled = push(state, block, filled, halves(ends[2], ends[3]));
    let filled = push(state, block, filled, halves(ends[3], ends[4]));
    let filled = push(state, block, filled, halves(ends[4], ends[5]));
    let filled = push(state, block, filled, halves(ends[5], ends[6]));
    push(state, block, filled, halves(ends[6], ends[7]))
}

// Ends messages of `bits` bits each, whose padding ends the block that they end in.
fn push_padding(
    state: &mut [u32x4; 8],
    block: &mut [u32x4; 16],
    filled: usize,
    last: u32x4,
    bits: u32,
)
    requires { filled < 16 }
    ensures { (m : ℕ → List ℕ) → HoldMessages state.old block.old filled last m → (k : ℕ) → k < 4 → length (m k) % 32 ≡ 22 → 8 * length (m k) ≡ bits
        → digest_bytes (lane state.new k) 8 ≡ sha256 (m k) }
{
    let from = push(state, block, filled, halves(last, u32x4::splat(END_MARK)));
    let mut at = from;
    'zeros: for _ in from..15 {
        at = push(state, block, at, u32x4::splat(0));
    }
    push(state, block, at, u32x4::splat(bits));
}

// The secret of the tree in each lane.
#[inline(always)]
fn secrets(secret: &[u8; 32]) -> [u32x4; 8]
    ensures { (k : ℕ) → k < 4 → digest_bytes (lane result k) 8 ≡ secret.now }
{
    let [a, b, c, d, e, f, g, h] = words_of(secret);
    [
        u32x4::splat(a),
        u32x4::splat(b),
        u32x4::splat(c),
        u32x4::splat(d),
        u32x4::splat(e),
        u32x4::splat(f),
        u32x4::splat(g),
        u32x4::splat(h),
    ]
}

// Where chain `i` of four leaves ends, lane by lane.
fn ends(seed: &OtsSeed, leaves: u32x4, i: u16, kind: OtsKind) -> [u32x4; 8]
    ensures { (k : ℕ) → k < 4 → digest_bytes (lane result k) 8 ≡ chain_end kind seed.now (slice_index leaves k) i }
{
    let mut values = step_leaves(&seed.id, leaves, i, 0xff, &secrets(&seed.seed));
    'steps: for j in 0..kind.top_digit() {
        values = step_leaves(&seed.id, leaves, i, j, &values);
    }
    values
}

/// The one-time public keys K of four leaves (RFC 8554, section 4.3), each the one that
/// [`public_of`](crate::public_of) gives. The four are hashed side by side, in less time than one after
/// another. It takes no memory.
pub fn publics_of(seed: &OtsSeed, leaves: [u32; 4], kind: OtsKind) -> [[u8; 32]; 4]
    ensures { (k : ℕ) → k < 4 → slice_index_or result k [] ≡ public_key kind seed.now (slice_index leaves k) }
{
    let leaves = u32x4::from_array(leaves);
    let mut state = initial4();
    let mut block = [u32x4::splat(0); 16];
    let mut filled = push_heads(&mut state, &mut block, &seed.id, leaves);
    let mut last = u32x4::splat(D_PBLC);
    'chains: for i in 0..kind.chain_count() {
        let values = ends(seed, leaves, i, kind);
        filled = push_ends(&mut state, &mut block, filled, last, &values);
        last = values[7];
    }
    push_padding(
        &mut state,
        &mut block,
        filled,
        last,
        8 * (22 + 32 * u32::from(kind.chain_count())),
    );
    digests4(&state)
}
