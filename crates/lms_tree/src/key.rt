//! Keys with their trees.
ghost use Rattle.std.specs.Prelude.{◌≡◌};

use crate::heights::Height;
use crate::public::Public;
use lmots_core::{OtsKind, OtsSeed};
use std::alloc::Global;
use std::marker::Model;

/// A secret key with its whole tree, so that a signature costs no hashing of nodes. A contract sees
/// its two types and its seed, from which all else follows. The tree takes 64 bytes a leaf: 2 KB at
/// height 5, 64 KB at height 10.
#[derive(Drop)]
pub struct Key {
    pub(crate) ots: OtsKind,
    pub(crate) height: Height,
    pub(crate) seed: OtsSeed,
    // T[r] at place r (RFC 8554, section 5.3); place 0 is not used.
    pub(crate) nodes: Vec<[u8; 32]>,
}

impl Model for Key {
    ghost use Rattle.lms_tree.specs.Keys.{TreeKey};
    ghost use Rattle.lms_tree.specs.Tree.{IsTree};

    ghost Value = { TreeKey };

    ghost view = { λ key. record { ots = key.ots; height = key.height; seed = key.seed } };

    ghost invariant = { λ key. IsTree key.ots key.height key.seed key.nodes.items };
}

impl Key {
    ghost use Rattle.lms_tree.specs.Keys.{public_of_key};

    /// The public key (RFC 8554, section 5.3). It takes no memory.
    pub fn public(&self) -> Public
        ensures { result ≡ public_of_key self.now }
    {
        Public {
            ots: self.ots,
            height: self.height,
            id: self.seed.id,
            root: self.nodes[1],
        }
    }

    /// The allocator that the tree's memory came from.
    pub fn allocator(&self) -> Global {
        *self.nodes.allocator()
    }
}
