//! Public keys.
ghost use Rattle.std.specs.Prelude.{◌≡◌};
ghost use Rattle.lms_tree.specs.Signatures.{tree_signature_len};

use crate::heights::Height;
use lmots_core::OtsKind;

/// A public key (RFC 8554, section 5.3).
#[derive(Clone, Copy, Debug, PartialEq, Eq)]
pub struct Public {
    /// The kind of its one-time keys.
    pub ots: OtsKind,
    /// The height of its tree.
    pub height: Height,
    /// I, the identifier of the tree.
    pub id: [u8; 16],
    /// T[1], the root of the tree.
    pub root: [u8; 32],
}

impl Public {
    /// The length in bytes of each signature that is valid under this key (RFC 8554, section 5.4): 8
    /// for the leaf and the type, those of the one-time signature, and 32 for each level of the tree.
    /// It is 1,292 to 9,324, by the two types.
    pub fn signature_len(&self) -> usize
        ensures { result ≡ tree_signature_len self.now.ots self.now.height }
    {
        8 + self.ots.signature_len() + 32 * usize::from(self.height.levels())
    }
}
