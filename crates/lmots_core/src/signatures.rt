//! One-time signatures (RFC 8554, section 4.5).
ghost use Rattle.std.specs.Prelude.{◌≡◌, ℕ, ◌<◌, ◌≤◌, ◌+◌, ◌*◌, ◌++◌, OnOk, OnErr, length, slice_index, vec_len, vec_capacity};
ghost use Rattle.lmots_core.specs.Parameters.{width, chain_count, signature_len};
ghost use Rattle.lmots_core.specs.Digits.{coef};
ghost use Rattle.lmots_core.specs.Chains.{joined};
ghost use Rattle.lmots_core.specs.Running.{value_in};
ghost use Rattle.lmots_core.specs.OneTime.{message_digest, signed_value, signature};

use crate::chains::{run, starts};
use crate::digits::{coef, with_checksum};
use crate::kind::OtsKind;
use crate::seed::OtsSeed;
use sha_lanes::digest_of;
use sha2::{Digest, Sha256};
use std::alloc::AllocError;

// D_MESG, which marks the hash of a message.
const D_MESG: [u8; 2] = [0x81, 0x81];

// Q, the digest of a message under the randomizer `C`.
#[tactic(auto, unfolding(crate::specs::OneTime::message_digest))]
pub(crate) fn message_digest(id: &[u8; 16], q: u32, randomizer: &[u8], message: &[u8]) -> [u8; 32]
    ensures { result ≡ message_digest id.now q randomizer.now message.now }
{
    let mut hasher = Sha256::new();
    hasher.update(id);
    hasher.update(q.to_be_bytes());
    hasher.update(D_MESG);
    hasher.update(randomizer);
    hasher.update(message);
    hasher.finalize()
}

// Where the chains of a signature end: each at its digit.
fn set_goals(digits: &[u8; 34], kind: OtsKind, goals: &mut [u8])
    requires goals { length goals.old ≡ chain_count kind }
    ensures goals { length goals.new ≡ length goals.old }
    ensures set { (i : ℕ) → i < chain_count kind → slice_index goals.new i ≡ coef digits.now i (width kind) }
{
    'goals: for i in 0..kind.chain_count() {
        goals[usize::from(i)] = coef(digits, i, kind);
    }
}

// The values of a signature that shows `digits`.
fn sign_values(
    seed: &OtsSeed,
    q: u32,
    kind: OtsKind,
    digits: &[u8; 34],
    values: &mut [[u32; 8]],
    places: &mut [u8],
    goals: &mut [u8],
)
    requires values { length values.old ≡ chain_count kind }
    requires places { length places.old ≡ chain_count kind }
    requires goals { length goals.old ≡ chain_count kind }
    requires first { (i : ℕ) → i < chain_count kind → slice_index places.old i ≡ 0 }
    ensures long { length values.new ≡ length values.old }
    ensures signed { (i : ℕ) → i < chain_count kind → value_in values.new i ≡ signed_value kind seed.now q digits.now i }
{
    set_goals(digits, kind, goals);
    starts(seed, q, values);
    run(&seed.id, q, values, places, goals);
}

// Appends values, within the room that `into` has.
fn append_values(values: &[[u32; 8]], into: &mut Vec<u8>)
    requires { vec_len into.old + 32 * length values.now ≤ vec_capacity into.old }
    ensures items { into.new.items ≡ into.old.items ++ joined (value_in values.now) (length values.now) }
    ensures len { vec_len into.new ≡ vec_len into.old + 32 * length values.now }
    ensures room { vec_capacity into.old ≤ vec_capacity into.new }
{
    for i in 0..values.len() {
        into.extend_from_slice(&digest_of(&values[i])).unwrap();
    }
}

// Appends the values of a signature, with a table of the kind's size to run the chains in.
fn write_in(
    seed: &OtsSeed,
    q: u32,
    kind: OtsKind,
    digits: &[u8; 34],
    values: &mut [[u32; 8]],
    places: &mut [u8],
    goals: &mut [u8],
    into: &mut Vec<u8>,
)
    requires values { length values.old ≡ chain_count kind }
    requires places { length places.old ≡ chain_count kind }
    requires goals { length goals.old ≡ chain_count kind }
    requires first { (i : ℕ) → i < chain_count kind → slice_index places.old i ≡ 0 }
    requires fits { vec_len into.old + 32 * chain_count kind ≤ vec_capacity into.old }
    ensures items { into.new.items ≡ into.old.items ++ joined (signed_value kind seed.now q digits.now) (chain_count kind) }
    ensures len { vec_len into.new ≡ vec_len into.old + 32 * chain_count kind }
    ensures room { vec_capacity into.old ≤ vec_capacity into.new }
{
    sign_values(seed, q, kind, digits, values, places, goals);
    append_values(values, into);
}

// Appends the values of a signature that shows `digits`, within the room that `into` has.
fn write_values(seed: &OtsSeed, q: u32, kind: OtsKind, digits: &[u8; 34], into: &mut Vec<u8>)
    requires { vec_len into.old + 32 * chain_count kind ≤ vec_capacity into.old }
    ensures items { into.new.items ≡ into.old.items ++ joined (signed_value kind seed.now q digits.now) (chain_count kind) }
    ensures len { vec_len into.new ≡ vec_len into.old + 32 * chain_count kind }
    ensures room { vec_capacity into.old ≤ vec_capacity into.new }
{
    let count = usize::from(kind.chain_count());
    let mut values = [[0u32; 8]; 265];
    let mut places = [0u8; 265];
    let mut goals = [0u8; 265];
    write_in(
        seed,
        q,
        kind,
        digits,
        &mut values[..count],
        &mut places[..count],
        &mut goals[..count],
        into,
    );
}

/// Appends to `into` the one-time signature of `message` by leaf `q` with the randomizer C
/// (RFC 8554, section 4.5): the type in 4 bytes, C in 32, and 32 bytes for each chain. A leaf is to
/// sign one message only.
///
/// `NoMemory` comes where the memory for the signature is refused; then `into` holds what it held.
pub fn sign(
    seed: &OtsSeed,
    q: u32,
    kind: OtsKind,
    randomizer: &[u8; 32],
    message: &[u8],
    into: &mut Vec<u8>,
) -> Result<(), AllocError>
    ensures signed { OnOk result (into.new.items ≡ into.old.items ++ signature kind seed.now q randomizer.now message.now) }
    ensures refused { OnErr result (into.new.items ≡ into.old.items) }
{
    into.reserve(kind.signature_len())?;
    sign_in(seed, q, kind, randomizer, message, into);
    Ok(())
}

/// Appends what [`sign`] appends, within the room that `into` has. It takes no memory and cannot
/// fail, so that a caller can have all memory before a leaf is used.
pub fn sign_in(
    seed: &OtsSeed,
    q: u32,
    kind: OtsKind,
    randomizer: &[u8; 32],
    message: &[u8],
    into: &mut Vec<u8>,
)
    requires { vec_len into.old + signature_len kind ≤ vec_capacity into.old }
    ensures signed { into.new.items ≡ into.old.items ++ signature kind seed.now q randomizer.now message.now }
    ensures len { vec_len into.new ≡ vec_len into.old + signature_len kind }
    ensures room { vec_capacity into.old ≤ vec_capacity into.new }
{
    let digest = message_digest(&seed.id, q, randomizer, message);
    let digits = with_checksum(&digest, kind);
    into.extend_from_slice(&kind.type_code().to_be_bytes())
        .unwrap();
    into.extend_from_slice(randomizer).unwrap();
    write_values(seed, q, kind, &digits, into);
}
