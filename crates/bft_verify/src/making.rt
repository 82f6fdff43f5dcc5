//! The making of a `Keyring`.
ghost use Rattle.std.specs.Prelude.{◌≡◌, IfOk, IsTrue, length, sum};
ghost use Rattle.std.specs.List.{list_all};
ghost use Rattle.bft_verify.specs.Ring.{is_fabric_key};
ghost use Rattle.bft_verify.specs.Rows.{rows};

use crate::ring::Keyring;
use fab_base::{Members, NoMemory, Rows};
use lms_tree::Public;
use std::alloc::Global;

/// These keys as a list.
fn row_of(alloc: Global, keys: &[Public]) -> Result<Rows<Public>, NoMemory>
    ensures { IfOk result (λ r. r ≡ keys.now) }
{
    Ok(Rows::from_vec(keys.to_vec(alloc)?))
}

/// The keys of the members, in the order of their ids, cut into a row for each cluster.
fn rows_of(
    alloc: Global,
    members: &Members,
    replicas: &[Public],
) -> Result<Rows<Rows<Public>>, NoMemory>
    requires { length replicas.now ≡ sum members.now.sizes }
    ensures { IfOk result (λ r. r ≡ rows members.now.sizes replicas.now) }
{
    let mut rows = Rows::new(alloc);
    let mut rest = replicas;
    for before in 0..members.clusters() {
        let (row, behind) = rest.split_at(members.size(before + 1) as usize);
        rows.push(row_of(alloc, row)?)?;
        rest = behind;
    }
    Ok(rows)
}

/// The keyring of these public keys: one for each replica, in the order of their ids (by cluster, and then by index), and one for each
/// client, by number. All are of kind W4 and of height 5 or 10. It fails only where memory is refused.
pub fn keyring(
    alloc: Global,
    members: &Members,
    replicas: &[Public],
    clients: &[Public],
) -> Result<Keyring, NoMemory>
    requires replicas { length replicas.now ≡ sum members.now.sizes }
    requires clients { length clients.now ≡ length members.now.homes }
    requires replica_kinds { IsTrue (list_all is_fabric_key replicas.now) }
    requires client_kinds { IsTrue (list_all is_fabric_key clients.now) }
    ensures { IfOk result (λ ring. ring ≡ record { replicas = rows members.now.sizes replicas.now; clients = clients.now }) }
{
    let replicas = rows_of(alloc, members, replicas)?;
    let clients = row_of(alloc, clients)?;
    Keyring::new(alloc, replicas, clients)
}
