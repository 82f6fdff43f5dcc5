//! The members of a cluster as a list.
ghost use Rattle.std.specs.Prelude.{◌≡◌, ◌++◌, OnOk};
ghost use Rattle.fab_base.specs.Roster.{members_of};

use crate::NoMemory;
use crate::ids::ReplicaId;
use fab_rows::Rows;

/// Puts the members of a cluster of this size behind others, by rising index. It fails only where memory is refused.
pub fn put_members(replicas: &mut Rows<ReplicaId>, cluster: u8, size: u8) -> Result<(), NoMemory>
    ensures { OnOk result (replicas.new ≡ replicas.old ++ members_of cluster size) }
{
    for index in 0..size {
        replicas.push(ReplicaId { cluster, index })?;
    }
    Ok(())
}
