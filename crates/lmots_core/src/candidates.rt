//! Candidate keys (RFC 8554, section 4.6).
ghost use Rattle.std.specs.Prelude.{◌≡◌, ℕ, ◌<◌, length, take, slice_index};
ghost use Rattle.std.specs.Int.{w32, to_be_bytes};
ghost use Rattle.lmots_core.specs.Parameters.{type_code, chain_count, top_digit, signature_len, width};
ghost use Rattle.lmots_core.specs.Digits.{coef};
ghost use Rattle.lmots_core.specs.Chains.{joined};
ghost use Rattle.lmots_core.specs.Running.{value_in};
ghost use Rattle.lmots_core.specs.OneTime.{candidate_key, completed_value, key_of_ends, value_of};

use crate::chains::run;
use crate::digits::{coef, with_checksum};
use crate::kind::OtsKind;
use crate::public_keys::{feed_values, key_hasher};
use crate::signatures::message_digest;
use sha_lanes::words_of;
use sha2::Digest;

// The values of a signature and the places where they stand.
fn load(
    signature: &[u8],
    digits: &[u8; 34],
    kind: OtsKind,
    values: &mut [[u32; 8]],
    places: &mut [u8],
)
    requires sized { length signature.now ≡ signature_len kind }
    requires values { length values.old ≡ chain_count kind }
    requires places { length places.old ≡ chain_count kind }
    ensures values { length values.new ≡ length values.old }
    ensures places { length places.new ≡ length places.old }
    ensures loaded { (i : ℕ) → i < chain_count kind → (value_in values.new i ≡ value_of signature.now i) × (slice_index places.new i ≡ coef digits.now i (width kind)) }
{
    'load: for i in 0..kind.chain_count() {
        let at = usize::from(i);
        let mut value = [0u8; 32];
        value.copy_from_slice(&signature[36 + 32 * at..36 + 32 * at + 32]);
        values[at] = words_of(&value);
        places[at] = coef(digits, i, kind);
    }
}

// The key that the signature's values lead to, with a table of the kind's size to run the chains in.
fn candidate_in(
    id: &[u8; 16],
    q: u32,
    kind: OtsKind,
    digits: &[u8; 34],
    signature: &[u8],
    values: &mut [[u32; 8]],
    places: &mut [u8],
    goals: &[u8],
) -> [u8; 32]
    requires sized { length signature.now ≡ signature_len kind }
    requires values { length values.old ≡ chain_count kind }
    requires places { length places.old ≡ chain_count kind }
    requires goals { length goals.now ≡ chain_count kind }
    requires last { (i : ℕ) → i < chain_count kind → slice_index goals.now i ≡ top_digit kind }
    ensures { result ≡ key_of_ends id.now q (joined (completed_value kind id.now q digits.now signature.now) (chain_count kind)) }
{
    load(signature, digits, kind, values, places);
    run(id, q, values, places, goals);
    let mut hasher = key_hasher(id, q);
    feed_values(&mut hasher, values);
    hasher.finalize()
}

/// The key Kc under which `signature` would be leaf `q`'s signature of `message` (RFC 8554,
/// section 4.6, algorithm 4b). It takes no memory: the chains run in a table on the stack, which is
/// 9 KB for any kind.
pub fn candidate(id: &[u8; 16], q: u32, kind: OtsKind, message: &[u8], signature: &[u8]) -> [u8; 32]
    requires typed { take 4 signature.now ≡ to_be_bytes w32 (type_code kind) }
    requires sized { length signature.now ≡ signature_len kind }
    ensures { result ≡ candidate_key kind id.now q message.now signature.now }
{
    let digest = message_digest(id, q, &signature[4..36], message);
    let digits = with_checksum(&digest, kind);
    let count = usize::from(kind.chain_count());
    let mut values = [[0u32; 8]; 265];
    let mut places = [0u8; 265];
    let goals = [kind.top_digit(); 265];
    candidate_in(
        id,
        q,
        kind,
        &digits,
        signature,
        &mut values[..count],
        &mut places[..count],
        &goals[..count],
    )
}
