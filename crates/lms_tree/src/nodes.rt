//! The hashes of the tree's nodes (RFC 8554, section 5.3).
ghost use Rattle.std.specs.Prelude.{◌≡◌, ◌++◌};
ghost use Rattle.std.specs.Int.{w32, to_be_bytes};
ghost use Rattle.sha2.specs.Hashers.{Holds256};
ghost use Rattle.lms_tree.specs.Tree.{leaf_node, inner_node};

use sha2::{Digest, Sha256};

// D_LEAF and D_INTR, which mark the hashes of leaves and of the nodes above them.
const D_LEAF: [u8; 2] = [0x82, 0x82];

const D_INTR: [u8; 2] = [0x83, 0x83];

// A hasher of node `r`, before what it stands on.
fn node_hasher(id: &[u8; 16], r: u32, mark: [u8; 2]) -> Sha256
    ensures { Holds256 result (id.now ++ to_be_bytes w32 r ++ mark) }
{
    let mut hasher = Sha256::new();
    hasher.update(id);
    hasher.update(r.to_be_bytes());
    hasher.update(mark);
    hasher
}

// Node `r`, a leaf with this one-time public key.
#[tactic(auto, unfolding(crate::specs::Tree::leaf_node))]
pub(crate) fn leaf_node(id: &[u8; 16], r: u32, key: &[u8; 32]) -> [u8; 32]
    ensures { result ≡ leaf_node id.now r key.now }
{
    let mut hasher = node_hasher(id, r, D_LEAF);
    hasher.update(key);
    hasher.finalize()
}

// Node `r`, above the nodes `left` and `right`.
#[tactic(auto, unfolding(crate::specs::Tree::inner_node))]
pub(crate) fn inner_node(id: &[u8; 16], r: u32, left: &[u8; 32], right: &[u8; 32]) -> [u8; 32]
    ensures { result ≡ inner_node id.now r left.now right.now }
{
    let mut hasher = node_hasher(id, r, D_INTR);
    hasher.update(left);
    hasher.update(right);
    hasher.finalize()
}
