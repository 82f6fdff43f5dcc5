//! The path of a leaf: the nodes beside the way from it up to the root (RFC 8554, section 5.4).
ghost use Rattle.std.specs.Prelude.{◌≡◌, ◌+◌, ◌*◌, ◌^◌, ◌<◌, ◌≤◌, ◌++◌, length, take, drop, vec_len, vec_capacity};
ghost use Rattle.lmots_core.specs.Chains.{joined};
ghost use Rattle.lms_tree.specs.Tree.{sibling};
ghost use Rattle.lms_tree.specs.Verdict.{climbed};
ghost use Rattle.lms_tree.specs.Paths.{nodes_beside, path_read};

use crate::fields::hash_at;
use crate::nodes::inner_node;

// Appends the nodes beside the way from leaf node `r` up to the root, the leaf's sibling first, within
// the room that `into` has.
pub(crate) fn write_path(nodes: &[[u8; 32]], levels: u8, r: u32, into: &mut Vec<u8>)
    requires few { levels ≤ 25 }
    requires sized { length nodes.now ≡ 2 ^ (levels + 1) }
    requires within { r < 2 ^ (levels + 1) }
    requires room { vec_len into.old + 32 * levels ≤ vec_capacity into.old }
    ensures { into.new.items ≡ into.old.items ++ joined (nodes_beside nodes.now r) levels }
{
    for i in 0..levels {
        let beside = (r >> i) ^ 1;
        into.extend_from_slice(&nodes[beside as usize]).unwrap();
    }
}

// Climbs from leaf node `r`, which has this value, up to the root, along the path in `bytes`
// (RFC 8554, section 5.4.2, algorithm 6a).
pub(crate) fn climb(id: &[u8; 16], r: u32, value: [u8; 32], bytes: &[u8], levels: u8) -> [u8; 32]
    requires few { levels ≤ 25 }
    requires sized { length bytes.now ≡ 32 * levels }
    ensures { result ≡ climbed id.now (path_read bytes.now) r value levels }
{
    let mut value = value;
    for i in 0..levels {
        let beside = hash_at(bytes, 32 * usize::from(i));
        let number = r >> i;
        value = if number % 2 == 1 {
            inner_node(id, number / 2, &beside, &value)
        } else {
            inner_node(id, number / 2, &value, &beside)
        };
    }
    value
}
