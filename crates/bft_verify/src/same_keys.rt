//! Whether two lists of public keys are the same, by value.
ghost use Rattle.std.specs.Prelude.{◌≡◌, ◌↔◌, IsTrue};

use fab_base::Rows;
use lms_tree::Public;

/// Whether both are the same key (RFC 8554, section 5.3): of equal types, identifier and root.
fn is_same_key(key: &Public, other: &Public) -> bool
    ensures { IsTrue result ↔ (key.now ≡ other.now) }
{
    key.ots == other.ots
        && key.height == other.height
        && key.id == other.id
        && key.root == other.root
}

/// Whether both are the same keys in the same order.
pub(crate) fn are_same_keys(keys: &[Public], others: &[Public]) -> bool
    ensures { IsTrue result ↔ (keys.now ≡ others.now) }
{
    if keys.len() != others.len() {
        return false;
    }
    'keys: for place in 0..keys.len() {
        if !is_same_key(&keys[place], &others[place]) {
            return false;
        }
    }
    true
}

/// Whether both are the keys of the same members of the same clusters.
pub(crate) fn are_same_clusters(rows: &[Rows<Public>], others: &[Rows<Public>]) -> bool
    ensures { IsTrue result ↔ (rows.now ≡ others.now) }
{
    if rows.len() != others.len() {
        return false;
    }
    'clusters: for place in 0..rows.len() {
        if !are_same_keys(rows[place].as_slice(), others[place].as_slice()) {
            return false;
        }
    }
    true
}
