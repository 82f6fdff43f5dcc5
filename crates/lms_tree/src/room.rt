//! The memory for a signature, taken before a leaf is used.
ghost use Rattle.std.specs.Prelude.{◌≡◌, ◌≤◌, [], IfOk, vec_len, vec_capacity};
ghost use Rattle.lms_tree.specs.Signatures.{tree_signature_len};

use crate::public::Public;
use fab_rows::NoMemory;
use std::alloc::Global;
use std::marker::Model;

/// The memory for one signature. Whoever has it can sign without taking memory, and so without
/// failing ([`sign_leaf_in`](crate::sign_leaf_in)). A contract sees how many bytes it is enough for.
#[derive(Drop)]
pub struct SignatureRoom {
    len: usize,
    bytes: Vec<u8>,
}

impl Model for SignatureRoom {
    ghost use Rattle.std.specs.Prelude.{ℕ, ◌≡◌, ◌≤◌, [], vec_capacity};

    ghost Value = { ℕ };

    ghost view = { λ room. room.len };

    ghost invariant = { λ room. (room.bytes.items ≡ []) × (room.len ≤ vec_capacity room.bytes) };
}

impl SignatureRoom {
    /// Room for one signature under a key. It fails only where memory is refused.
    pub fn new(alloc: Global, key: &Public) -> Result<SignatureRoom, NoMemory>
        ensures { IfOk result (λ room. room ≡ tree_signature_len key.now.ots key.now.height) }
    {
        let len = key.signature_len();
        let bytes = Vec::with_capacity(alloc, len)?;
        Ok(SignatureRoom { len, bytes })
    }

    // The memory itself, with nothing in it yet.
    pub(crate) fn into_bytes(self) -> Vec<u8>
        ensures items { result.items ≡ [] }
        ensures len { vec_len result ≡ 0 }
        ensures enough { self ≤ vec_capacity result }
    {
        self.bytes
    }
}
