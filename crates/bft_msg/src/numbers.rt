//! What numbers a part may have.
ghost use Rattle.std.specs.Prelude.{◌≡◌, ◌+◌, ◌&&◌, nat_le, nat_lt, IsTrue};
ghost use Rattle.fab_base.specs.Roster.{is_cluster};
ghost use Rattle.fab_rules.specs.Shape.{is_view, is_slot, is_primary};

use fab_base::{GREATEST_NUMBER, Members, primary};

/// Whether it may be a view: it is at most 2^62.
pub(crate) fn is_view(view: u64) -> bool
    ensures { result ≡ is_view view }
{
    view <= GREATEST_NUMBER
}

/// Whether it may be a slot or a round: it is from 1 to 2^62.
pub(crate) fn is_slot(slot: u64) -> bool
    ensures { result ≡ is_slot slot }
{
    slot >= 1 && slot <= GREATEST_NUMBER
}

/// Whether a slot is one of those that are open above a low mark, or none if the window is 0.
pub(crate) fn is_open(low: u64, window: u8, slot: u64) -> bool
    ensures { result ≡ (nat_lt low slot && nat_le slot (low + window)) }
{
    slot > low && slot - low <= window as u64
}

/// Whether the member of a cluster is the primary of a view (PBFT, section 4).
pub(crate) fn is_primary(members: &Members, cluster: u8, view: u64, index: u8) -> bool
    requires { IsTrue (is_cluster members.now cluster) }
    ensures { result ≡ is_primary members.now cluster view index }
{
    index == primary(view, members.size(cluster))
}
