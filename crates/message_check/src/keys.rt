//! The keys of a seed.
//!
//! The name of a replica is the byte 1, its cluster and its index, and that of a client the byte 2 and its number. The identifier I of
//! a key is the first 16 bytes of SHA-256 of `gbft-id`, the seed in 8 bytes and the name, and SEED is SHA-256 of `gbft-key`, the seed
//! and the name (ours; I and SEED are those of RFC 8554). All keys are of kind W4, and those of clients of height 5.
ghost use Rattle.std.specs.Prelude.{◌≡◌, ◌+◌, ◌≤◌, IfOk, OnOk, IsTrue, length, sum};
ghost use Rattle.std.specs.List.{list_all};
ghost use Rattle.bft_verify.specs.Ring.{is_fabric_key, is_low};
ghost use Rattle.fab_base.specs.declared.limits.TheConstants.{MOST_CLUSTERS};

use fab_base::NoMemory;
use lms_tree::{Height, OtsKind, OtsSeed, Public, make};
use sha2::{Digest, Sha256};
use std::alloc::Global;

/// What is derived from a seed for a purpose, for whoever has this name.
fn derived(purpose: &[u8], seed: u64, name: &[u8]) -> [u8; 32] {
    let mut hasher = Sha256::new();
    hasher.update(purpose);
    hasher.update(seed.to_be_bytes());
    hasher.update(name);
    hasher.finalize()
}

/// The identifier of a key.
fn identifier(seed: u64, name: &[u8]) -> [u8; 16] {
    let mut id = [0u8; 16];
    id.copy_from_slice(&derived(b"gbft-id", seed, name)[..16]);
    id
}

/// The public key of whoever has this name.
fn public_key(alloc: Global, seed: u64, name: &[u8], height: Height) -> Result<Public, NoMemory>
    requires { IsTrue (is_low height) }
    ensures { IfOk result (λ key. IsTrue (is_fabric_key key)) }
{
    let secret = OtsSeed {
        id: identifier(seed, name),
        seed: derived(b"gbft-key", seed, name),
    };
    let key = make(alloc, secret, OtsKind::W4, height)?;
    Ok(key.public())
}

/// Puts a key behind the others.
fn put_key(keys: &mut Vec<Public>, key: Public) -> Result<(), NoMemory>
    requires key { IsTrue (is_fabric_key key) }
    requires kinds { IsTrue (list_all is_fabric_key keys.old.items) }
    ensures more { OnOk result (length keys.new.items ≡ length keys.old.items + 1) }
    ensures kinds { OnOk result (IsTrue (list_all is_fabric_key keys.new.items)) }
{
    keys.push(key)?;
    Ok(())
}

/// Puts the keys of a cluster's replicas behind the others.
fn put_cluster(
    alloc: Global,
    keys: &mut Vec<Public>,
    seed: u64,
    height: Height,
    cluster: u8,
    size: u8,
) -> Result<(), NoMemory>
    requires low { IsTrue (is_low height) }
    requires kinds { IsTrue (list_all is_fabric_key keys.old.items) }
    ensures more { OnOk result (length keys.new.items ≡ length keys.old.items + size) }
    ensures kinds { OnOk result (IsTrue (list_all is_fabric_key keys.new.items)) }
{
    for index in 0..size {
        put_key(keys, public_key(alloc, seed, &[1, cluster, index], height)?)?;
    }
    Ok(())
}

/// The keys of the replicas of clusters of these sizes, by cluster, and then by index.
pub(crate) fn replica_keys(
    alloc: Global,
    seed: u64,
    height: Height,
    sizes: &[u8],
) -> Result<Vec<Public>, NoMemory>
    requires low { IsTrue (is_low height) }
    requires clusters { length sizes.now ≤ MOST_CLUSTERS }
    ensures { IfOk result (λ keys. (length keys.items ≡ sum sizes.now) × IsTrue (list_all is_fabric_key keys.items)) }
{
    let mut keys = Vec::new(alloc);
    let mut cluster = 0;
    for size in sizes {
        cluster += 1;
        put_cluster(alloc, &mut keys, seed, height, cluster, *size)?;
    }
    Ok(keys)
}

/// The keys of so many clients, by number.
pub(crate) fn client_keys(alloc: Global, seed: u64, count: u8) -> Result<Vec<Public>, NoMemory>
    ensures { IfOk result (λ keys. (length keys.items ≡ count) × IsTrue (list_all is_fabric_key keys.items)) }
{
    let mut keys = Vec::new(alloc);
    for number in 0..count {
        put_key(
            &mut keys,
            public_key(alloc, seed, &[2, number], Height::H5)?,
        )?;
    }
    Ok(keys)
}
