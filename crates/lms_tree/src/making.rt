//! Making a key: the tree from its leaves to its root (RFC 8554, section 5.3 and appendix A).
ghost use Rattle.std.specs.Prelude.{ℕ, List, ◌≡◌, ◌+◌, ◌*◌, ◌^◌, ◌<◌, ◌≤◌, [], length, slice_index_or, IfOk};
ghost use Rattle.lmots_core.specs.OneTime.{public_key};
ghost use Rattle.lms_tree.specs.Heights.{levels, leaf_count};
ghost use Rattle.lms_tree.specs.Tree.{leaf_node, inner_node, HaveLeaves, IsTree};
ghost use Rattle.lms_tree.specs.Keys.{TreeKey};

use crate::heights::Height;
use crate::key::Key;
use crate::nodes::{inner_node, leaf_node};
use fab_rows::NoMemory;
use lmots_core::{OtsKind, OtsSeed, public_of, publics_of};
use std::alloc::Global;

// Sets leaf `q` of a tree with so many leaves to the one with this one-time public key.
fn set_leaf(id: &[u8; 16], leaves: u32, q: u32, key: &[u8; 32], nodes: &mut [[u8; 32]])
    requires few { leaves < 2 ^ 31 }
    requires within { q < leaves }
    requires sized { length nodes.old ≡ 2 * leaves }
    ensures { (keys : ℕ → List ℕ) → key.now ≡ keys q → HaveLeaves id.now leaves keys nodes.old q → HaveLeaves id.now leaves keys nodes.new (q + 1) }
{
    let r = leaves + q;
    nodes[r as usize] = leaf_node(id, r, key);
}

// Fills in the leaves of a tree: by fours, and what is left over one by one.
fn fill_leaves(seed: &OtsSeed, ots: OtsKind, leaves: u32, nodes: &mut [[u8; 32]])
    requires few { leaves < 2 ^ 31 }
    requires sized { length nodes.old ≡ 2 * leaves }
    ensures { HaveLeaves seed.now.id leaves (public_key ots seed.now) nodes.new leaves }
{
    'fours: for g in 0..leaves / 4 {
        let q = 4 * g;
        let keys = publics_of(seed, [q, q + 1, q + 2, q + 3], ots);
        set_leaf(&seed.id, leaves, q, &keys[0], nodes);
        set_leaf(&seed.id, leaves, q + 1, &keys[1], nodes);
        set_leaf(&seed.id, leaves, q + 2, &keys[2], nodes);
        set_leaf(&seed.id, leaves, q + 3, &keys[3], nodes);
    }
    'rest: for q in 4 * (leaves / 4)..leaves {
        let key = public_of(seed, q, ots);
        set_leaf(&seed.id, leaves, q, &key, nodes);
    }
}

// Fills in the nodes above the leaves, from below.
fn fill_inner(id: &[u8; 16], leaves: u32, nodes: &mut [[u8; 32]])
    requires few { leaves < 2 ^ 31 }
    requires sized { length nodes.old ≡ 2 * leaves }
    ensures leaves { (r : ℕ) → leaves ≤ r → slice_index_or nodes.new r [] ≡ slice_index_or nodes.old r [] }
    ensures inner { (r : ℕ) → 1 ≤ r → r < leaves
        → slice_index_or nodes.new r [] ≡ inner_node id.now r (slice_index_or nodes.new (2 * r) []) (slice_index_or nodes.new (2 * r + 1) []) }
{
    for r in (1..leaves).rev() {
        let left = 2 * r as usize;
        nodes[r as usize] = inner_node(id, r, &nodes[left], &nodes[left + 1]);
    }
}

/// The key with these types, identifier and seed, with its whole tree. The same arguments give the
/// same key. Only heights 5 and 10 are made; a key of height 10 hashes about 1.1 million blocks at
/// kind W4. `NoMemory` comes where the memory for the tree is refused.
pub fn make(alloc: Global, seed: OtsSeed, ots: OtsKind, height: Height) -> Result<Key, NoMemory>
    requires { levels height ≤ 10 }
    ensures { IfOk result (λ key. key ≡ record { ots = ots; height = height; seed = seed }) }
{
    let leaves = height.leaf_count();
    let mut nodes = vec![in alloc; [0u8; 32]; 2 * leaves as usize]?;
    fill_leaves(&seed, ots, leaves, nodes.as_mut_slice());
    fill_inner(&seed.id, leaves, nodes.as_mut_slice());
    Ok(Key {
        ots,
        height,
        seed,
        nodes,
    })
}
