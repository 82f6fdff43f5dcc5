//! Signing by a leaf (RFC 8554, section 5.4.1).
ghost use Rattle.std.specs.Prelude.{◌≡◌, ◌<◌, ◌≤◌, length, IfOk};
ghost use Rattle.lms_tree.specs.Heights.{leaf_count};
ghost use Rattle.lms_tree.specs.Keys.{public_of_key};
ghost use Rattle.lms_tree.specs.Signatures.{leaf_randomizer, leaf_signature, tree_signature_len};
ghost use Rattle.lms_tree.specs.Verdict.{Valid};

use crate::key::Key;
use crate::paths::write_path;
use crate::room::SignatureRoom;
use fab_rows::{Bytes, NoMemory};
use lmots_core::{OtsSeed, sign_in};
use sha2::{Digest, Sha256};
use std::alloc::Global;

// The randomizer of leaf `q`.
#[tactic(auto, unfolding(crate::specs::Signatures::leaf_randomizer))]
fn leaf_randomizer(seed: &OtsSeed, q: u32) -> [u8; 32]
    ensures { result ≡ leaf_randomizer seed.now q }
{
    let mut hasher = Sha256::new();
    hasher.update(b"gbft-rnd");
    hasher.update(seed.seed);
    hasher.update(seed.id);
    hasher.update(q.to_be_bytes());
    hasher.finalize()
}

/// The signature of `content` by leaf `q` (RFC 8554, section 5.4.1), which is valid under the key's
/// public key. The randomizer C of a leaf is ours: SHA-256 of `gbft-rnd`, SEED, I and q in four
/// bytes. A leaf is to sign one content only. `NoMemory` comes where the memory for the signature is
/// refused, before anything is signed.
pub fn sign_leaf(alloc: Global, key: &Key, q: u32, content: &[u8]) -> Result<Bytes, NoMemory>
    requires { q < leaf_count key.now.height }
    ensures signed { IfOk result (λ signature. signature ≡ leaf_signature key.now q content.now) }
    ensures valid { IfOk result (λ signature. Valid (public_of_key key.now) content.now signature) }
    ensures len { IfOk result (λ signature. length signature ≡ tree_signature_len key.now.ots key.now.height) }
{
    let room = SignatureRoom::new(alloc, &key.public())?;
    Ok(sign_leaf_in(room, key, q, content))
}

/// The signature that [`sign_leaf`] gives, in room that was taken before. It takes no memory and
/// cannot fail, so that a signer can have all memory before a leaf is used.
pub fn sign_leaf_in(room: SignatureRoom, key: &Key, q: u32, content: &[u8]) -> Bytes
    requires leaf { q < leaf_count key.now.height }
    requires room { tree_signature_len key.now.ots key.now.height ≤ room }
    ensures signed { result ≡ leaf_signature key.now q content.now }
    ensures valid { Valid (public_of_key key.now) content.now result }
    ensures len { length result ≡ tree_signature_len key.now.ots key.now.height }
{
    let mut bytes = room.into_bytes();
    bytes.extend_from_slice(&q.to_be_bytes()).unwrap();
    let randomizer = leaf_randomizer(&key.seed, q);
    sign_in(&key.seed, q, key.ots, &randomizer, content, &mut bytes);
    bytes
        .extend_from_slice(&key.height.type_code().to_be_bytes())
        .unwrap();
    let r = key.height.leaf_count() + q;
    write_path(key.nodes.as_slice(), key.height.levels(), r, &mut bytes);
    Bytes::from_vec(bytes)
}
