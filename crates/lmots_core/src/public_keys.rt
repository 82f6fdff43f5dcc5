//! One-time public keys (RFC 8554, section 4.3).
ghost use Rattle.std.specs.Prelude.{◌≡◌, ℕ, List, ◌<◌, ◌++◌, [], ◌∷◌, length, slice_index};
ghost use Rattle.std.specs.Int.{w32, to_be_bytes};
ghost use Rattle.sha2.specs.Hashers.{Holds256};
ghost use Rattle.lmots_core.specs.Parameters.{chain_count, top_digit};
ghost use Rattle.lmots_core.specs.Chains.{joined};
ghost use Rattle.lmots_core.specs.Running.{value_in};
ghost use Rattle.lmots_core.specs.OneTime.{public_key};

use crate::chains::{run, starts};
use crate::kind::OtsKind;
use crate::seed::OtsSeed;
use sha_lanes::digest_of;
use sha2::{Digest, Sha256};

// D_PBLC, which marks the hash of a public key.
const D_PBLC: [u8; 2] = [0x80, 0x80];

// A hasher of a public key, before the ends of the chains.
pub(crate) fn key_hasher(id: &[u8; 16], q: u32) -> Sha256
    ensures { Holds256 result (id.now ++ to_be_bytes w32 q ++ 0x80 ∷ 0x80 ∷ []) }
{
    let mut hasher = Sha256::new();
    hasher.update(id);
    hasher.update(q.to_be_bytes());
    hasher.update(D_PBLC);
    hasher
}

// Feeds values into a hasher.
pub(crate) fn feed_values(hasher: &mut Sha256, values: &[[u32; 8]])
    ensures { (front : List ℕ) → Holds256 hasher.old front → Holds256 hasher.new (front ++ joined (value_in values.now) (length values.now)) }
{
    'values: for i in 0..values.len() {
        hasher.update(digest_of(&values[i]));
    }
}

// The public key, with a table of the kind's size to run the chains in.
fn key_in(
    seed: &OtsSeed,
    q: u32,
    kind: OtsKind,
    values: &mut [[u32; 8]],
    places: &mut [u8],
    goals: &[u8],
) -> [u8; 32]
    requires values { length values.old ≡ chain_count kind }
    requires places { length places.old ≡ chain_count kind }
    requires goals { length goals.now ≡ chain_count kind }
    requires first { (i : ℕ) → i < chain_count kind → slice_index places.old i ≡ 0 }
    requires last { (i : ℕ) → i < chain_count kind → slice_index goals.now i ≡ top_digit kind }
    ensures { result ≡ public_key kind seed.now q }
{
    starts(seed, q, values);
    run(&seed.id, q, values, places, goals);
    let mut hasher = key_hasher(&seed.id, q);
    feed_values(&mut hasher, values);
    hasher.finalize()
}

/// The one-time public key K of leaf `q` (RFC 8554, section 4.3), with its chains started by the
/// rule of appendix A. It takes no memory: the chains run in a table on the stack, which is 9 KB for
/// any kind.
pub fn public_of(seed: &OtsSeed, q: u32, kind: OtsKind) -> [u8; 32]
    ensures { result ≡ public_key kind seed.now q }
{
    let count = usize::from(kind.chain_count());
    let mut values = [[0u32; 8]; 265];
    let mut places = [0u8; 265];
    let goals = [kind.top_digit(); 265];
    key_in(
        seed,
        q,
        kind,
        &mut values[..count],
        &mut places[..count],
        &goals[..count],
    )
}
