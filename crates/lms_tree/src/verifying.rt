//! Verifying a signature (RFC 8554, section 5.4.2).
ghost use Rattle.std.specs.Prelude.{◌≡◌, ◌↔◌, ◌<◌, length, IsOk};
ghost use Rattle.lms_tree.specs.Heights.{levels, leaf_count};
ghost use Rattle.lms_tree.specs.Signatures.{tree_signature_len};
ghost use Rattle.lms_tree.specs.Verdict.{number_at, candidate_root, verdict, Valid};
ghost use Rattle.lmots_core.specs.Parameters.{type_code};

use crate::faults::SigFault;
use crate::fields::number_at;
use crate::nodes::leaf_node;
use crate::paths::climb;
use crate::public::Public;
use lmots_core::candidate;

// The root under which a signature of the right form would be valid.
fn candidate_root(key: &Public, content: &[u8], signature: &[u8]) -> [u8; 32]
    requires sized { length signature.now ≡ tree_signature_len key.now.ots key.now.height }
    requires typed { number_at signature.now 4 ≡ type_code key.now.ots }
    requires leaf { number_at signature.now 0 < leaf_count key.now.height }
    ensures { result ≡ candidate_root key.now content.now signature.now }
{
    let q = number_at(signature, 0);
    let r = key.height.leaf_count() + q;
    let end = 4 + key.ots.signature_len();
    let ots_key = candidate(&key.id, q, key.ots, content, &signature[4..end]);
    let leaf = leaf_node(&key.id, r, &ots_key);
    climb(&key.id, r, leaf, &signature[end + 4..], key.height.levels())
}

/// Whether `signature` is a valid one of `content` under `key` (RFC 8554, section 5.4.2). It takes no
/// memory and looks at any bytes. A refused signature gets the first of these that applies, in this
/// order, which is ours:
///
/// - `BadLength`: there are fewer than 8 bytes.
/// - `BadType`: the type of the one-time signature, in bytes 4 to 7, is not the key's.
/// - `BadLength`: there are not as many bytes as a signature of the key's two types has.
/// - `BadType`: the type of the tree is not the key's.
/// - `BadLeaf`: the number of the leaf is 2^h or more.
/// - `WrongRoot`: the root that the signature leads to is not the key's.
pub fn verify(key: &Public, content: &[u8], signature: &[u8]) -> Result<(), SigFault>
    ensures valid { IsOk result ↔ Valid key.now content.now signature.now }
    ensures verdict { result ≡ verdict key.now content.now signature.now }
{
    if signature.len() < 8 {
        return Err(SigFault::BadLength);
    }
    if number_at(signature, 4) != key.ots.type_code() {
        return Err(SigFault::BadType);
    }
    if signature.len() != key.signature_len() {
        return Err(SigFault::BadLength);
    }
    if number_at(signature, 4 + key.ots.signature_len()) != key.height.type_code() {
        return Err(SigFault::BadType);
    }
    if number_at(signature, 0) >= key.height.leaf_count() {
        return Err(SigFault::BadLeaf);
    }
    if candidate_root(key, content, signature) != key.root {
        return Err(SigFault::WrongRoot);
    }
    Ok(())
}
