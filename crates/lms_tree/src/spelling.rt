//! Public keys as bytes (RFC 8554, section 5.3).
ghost use Rattle.std.specs.Prelude.{◌≡◌, ◌+◌, ◌≤◌, ◌++◌, length, take, IfOk};
ghost use Rattle.lms_tree.specs.PublicKeys.{public_bytes, public_of_bytes};

use crate::faults::SigFault;
use crate::fields::{hash_at, number_at};
use crate::heights::Height;
use crate::public::Public;
use lmots_core::OtsKind;

// Writes `part` at place `at`, so that what stands up to its end is what stood up to `at`, and the part.
fn put(bytes: &mut [u8; 56], at: usize, part: &[u8])
    requires { at + length part.now ≤ 56 }
    ensures { take (at + length part.now) bytes.new ≡ take at bytes.old ++ part.now }
{
    bytes[at..at + part.len()].copy_from_slice(part);
}

// The four fields of a key, one behind the other.
fn spell(key: &Public) -> [u8; 56]
    ensures { result ≡ public_bytes key.now }
{
    let mut bytes = [0u8; 56];
    put(&mut bytes, 0, &key.height.type_code().to_be_bytes());
    put(&mut bytes, 4, &key.ots.type_code().to_be_bytes());
    put(&mut bytes, 8, &key.id);
    put(&mut bytes, 24, &key.root);
    bytes
}

/// The 56 bytes of a public key (RFC 8554, section 5.3): the tree's type and the one-time type in 4
/// bytes each, I in 16 and the root in 32. `read_public` reads the same key back.
pub fn write_public(key: &Public) -> [u8; 56]
    ensures spelled { result ≡ public_bytes key.now }
    ensures read_back { public_of_bytes result ≡ Ok key.now }
{
    spell(key)
}

/// The public key that the bytes spell (RFC 8554, section 5.3). `BadLength` comes exactly where there
/// are not 56 bytes, and else `BadType` exactly where a type is not one of the five heights and four
/// kinds. It takes no memory.
pub fn read_public(bytes: &[u8]) -> Result<Public, SigFault>
    ensures read { result ≡ public_of_bytes bytes.now }
    ensures written_back { IfOk result (λ key. public_bytes key ≡ bytes.now) }
{
    if bytes.len() != 56 {
        return Err(SigFault::BadLength);
    }
    let Some(height) = Height::from_type_code(number_at(bytes, 0)) else {
        return Err(SigFault::BadType);
    };
    let Some(ots) = OtsKind::from_type_code(number_at(bytes, 4)) else {
        return Err(SigFault::BadType);
    };
    let mut id = [0u8; 16];
    id.copy_from_slice(&bytes[8..24]);
    let root = hash_at(bytes, 24);
    Ok(Public {
        ots,
        height,
        id,
        root,
    })
}
