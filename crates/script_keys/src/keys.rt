//! The keys of all who take part.
ghost use Rattle.std.specs.Prelude.{◌≡◌, ◌≤◌, ◌++◌, true, IfOk, OnOk, length, map};
ghost use Rattle.fab_base.specs.declared.limits.TheConstants.{MOST_CLUSTERS};
ghost use Rattle.fault_script.specs.Scripts.{keeps_limits};
ghost use Rattle.script_keys.specs.Keys.{height_of, key_height, key_of, replicas_from, replicas_of, signer_of, signers_of, client_keys_of};

use crate::names::seed_of;
use fab_base::{ClientId, NoMemory, ReplicaId, Rows, Who, put_members};
use fault_script::Script;
use lms_leaf::LeafSigner;
use lms_tree::{Height, Key, OtsKind, make};
use std::alloc::Global;

/// The height of so many levels.
fn height_of(levels: u8) -> Height
    ensures { result ≡ height_of levels }
{
    if levels == 5 { Height::H5 } else { Height::H10 }
}

/// The height of a replica's or a client's key.
fn key_height(script: &Script, who: Who) -> Height
    ensures { result ≡ key_height script.now who }
{
    match who {
        Who::Replica(_) => height_of(script.height),
        Who::Client(_) => Height::H5,
    }
}

/// The key of a replica or a client. It fails only where memory is refused.
fn key_of(alloc: Global, script: &Script, who: Who) -> Result<Key, NoMemory>
    ensures { IfOk result (λ key. key ≡ key_of script.now who) }
{
    make(
        alloc,
        seed_of(script.seed, who),
        OtsKind::W4,
        key_height(script, who),
    )
}

/// The replicas of clusters of these sizes, by id.
fn replicas_of(alloc: Global, sizes: &[u8]) -> Result<Rows<ReplicaId>, NoMemory>
    requires { length sizes.now ≤ MOST_CLUSTERS }
    ensures { IfOk result (λ replicas. replicas ≡ replicas_from 1 sizes.now) }
{
    let mut replicas = Rows::new(alloc);
    for before in 0..sizes.len() {
        put_members(&mut replicas, before as u8 + 1, sizes[before])?;
    }
    Ok(replicas)
}

/// The replicas of a script, by id: cluster after cluster, and those of a cluster by index. It fails only where memory is refused.
pub fn script_replicas(alloc: Global, script: &Script) -> Result<Rows<ReplicaId>, NoMemory>
    requires { keeps_limits script.now ≡ true }
    ensures { IfOk result (λ replicas. replicas ≡ replicas_of script.now) }
{
    replicas_of(alloc, script.sizes.as_slice())
}

/// The signers of these replicas.
fn signers_for(
    alloc: Global,
    script: &Script,
    replicas: &[ReplicaId],
) -> Result<Rows<LeafSigner>, NoMemory>
    ensures { IfOk result (λ signers. signers ≡ map (λ i. signer_of script.now (Who.Replica i)) replicas.now) }
{
    let mut signers = Rows::new(alloc);
    for replica in replicas {
        let key = key_of(alloc, script, Who::Replica(*replica))?;
        signers.push(LeafSigner::make(key))?;
    }
    Ok(signers)
}

/// A signer for each replica of a script, by id: of kind W4 and the script's height, made from the script's seed, with no leaf used. It
/// fails only where memory is refused.
pub fn replica_signers(alloc: Global, script: &Script) -> Result<Rows<LeafSigner>, NoMemory>
    requires { keeps_limits script.now ≡ true }
    ensures { IfOk result (λ signers. signers ≡ signers_of script.now) }
{
    let replicas = script_replicas(alloc, script)?;
    signers_for(alloc, script, replicas.as_slice())
}

/// The key of each client of a script, by number: of kind W4 and height 5, made from the script's seed. It fails only where memory is
/// refused.
pub fn client_keys(alloc: Global, script: &Script) -> Result<Rows<Key>, NoMemory>
    requires { keeps_limits script.now ≡ true }
    ensures { IfOk result (λ keys. keys ≡ client_keys_of script.now) }
{
    let mut keys = Rows::new(alloc);
    for number in 0..script.homes.len() as u8 {
        keys.push(key_of(alloc, script, Who::Client(ClientId { number }))?)?;
    }
    Ok(keys)
}
