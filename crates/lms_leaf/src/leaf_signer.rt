//! A key with the number of its next leaf.
ghost use Rattle.std.specs.Prelude.{◌≡◌, ◌+◌, ◌<◌, ◌≤◌, length};
ghost use Rattle.lms_tree.specs.Heights.{leaf_count};
ghost use Rattle.lms_tree.specs.Keys.{public_of_key};
ghost use Rattle.lms_tree.specs.Signatures.{leaf_signature, tree_signature_len};
ghost use Rattle.lms_tree.specs.Verdict.{Valid};

use fab_rows::Bytes;
use lms_tree::{Key, Public, SignFault, SignatureRoom, Signer, sign_leaf_in};
use std::marker::Model;

/// A key that counts its leaves and uses them in order: number k is signed by leaf k, so none is used
/// twice and none is skipped. A contract sees the key and the number of leaves used.
#[derive(Drop)]
pub struct LeafSigner {
    key: Key,
    next: u32,
}

impl Model for LeafSigner {
    ghost use Rattle.std.specs.Prelude.{◌≤◌};
    ghost use Rattle.lms_tree.specs.Heights.{leaf_count};
    ghost use Rattle.lms_leaf.specs.Leaves.{Leaves};

    ghost Value = { Leaves };

    ghost view = { λ s. record { key = s.key; used = s.next } };

    ghost invariant = { λ s. s.next ≤ leaf_count s.key.height };
}

impl LeafSigner {
    /// A signer that begins at leaf 0. The key is to have signed nothing yet. It takes no memory.
    pub fn make(key: Key) -> LeafSigner
        ensures { result ≡ record { key = key; used = 0 } }
    {
        LeafSigner { key, next: 0 }
    }

    // Signs with the next leaf, which is used by this: the one place where a signature is made is the one
    // that counts.
    fn use_leaf(&mut self, content: &[u8], room: SignatureRoom) -> Bytes
        requires left { self.old.used < leaf_count self.old.key.height }
        requires room { tree_signature_len self.old.key.ots self.old.key.height ≤ room }
        ensures signed { result ≡ leaf_signature self.old.key self.old.used content.now }
        ensures valid { Valid (public_of_key self.old.key) content.now result }
        ensures len { length result ≡ tree_signature_len self.old.key.ots self.old.key.height }
        ensures used { self.new ≡ record { key = self.old.key; used = self.old.used + 1 } }
    {
        let signature = sign_leaf_in(room, &self.key, self.next, content);
        self.next += 1;
        signature
    }
}

impl Signer for LeafSigner {
    ghost use Rattle.lms_tree.specs.Heights.{leaf_count};
    ghost use Rattle.lms_tree.specs.Keys.{public_of_key};
    ghost use Rattle.lms_tree.specs.Signatures.{leaf_signature};
    ghost use Rattle.lms_tree.proofs.SignerLemmas.{leaf_signature_valid, leaf_signature_apart};

    ghost key = { λ s. public_of_key s.key };

    ghost limit = { λ s. leaf_count s.key.height };

    ghost made = { λ s. s.used };

    ghost gives = { λ s k content. leaf_signature s.key k content };

    ghost valid = { λ s k content lt. leaf_signature_valid s.key k content lt };

    ghost apart = { λ s j k a b. leaf_signature_apart s.key j k a b };

    fn public(&self) -> Public {
        self.key.public()
    }

    fn used(&self) -> u32 {
        self.next
    }

    fn spent(&self) -> bool {
        self.next == self.key.public().height.leaf_count()
    }

    fn sign_both(
        &mut self,
        first: &[u8],
        second: &[u8],
    ) -> Result<(Bytes, Option<Bytes>), SignFault> {
        let public = self.key.public();
        let leaves = public.height.leaf_count();
        if self.next == leaves {
            return Err(SignFault::KeySpent { used: self.next });
        }
        let alloc = self.key.allocator();
        let room = SignatureRoom::new(alloc, &public)?;
        if self.next + 1 == leaves {
            return Ok((self.use_leaf(first, room), None));
        }
        let room_beside = SignatureRoom::new(alloc, &public)?;
        let first = self.use_leaf(first, room);
        let second = self.use_leaf(second, room_beside);
        Ok((first, Some(second)))
    }

    fn sign(&mut self, content: &[u8]) -> Result<Bytes, SignFault> {
        let public = self.key.public();
        if self.next == public.height.leaf_count() {
            return Err(SignFault::KeySpent { used: self.next });
        }
        let room = SignatureRoom::new(self.key.allocator(), &public)?;
        Ok(self.use_leaf(content, room))
    }
}
