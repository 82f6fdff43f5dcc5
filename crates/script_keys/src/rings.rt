//! The ring of the public keys.
ghost use Rattle.std.specs.Prelude.{◌≡◌, IfOk, map};
ghost use Rattle.lms_tree.specs.Keys.{TreeKey, public_of_key};
ghost use Rattle.lms_leaf.specs.Leaves.{Leaves};
ghost use Rattle.script_keys.specs.Keys.{signers_of, client_keys_of};
ghost use Rattle.script_keys.specs.Rings.{ring_of};

use bft_verify::{Keyring, keyring};
use fab_base::{Members, NoMemory};
use fault_script::Script;
use lms_leaf::LeafSigner;
use lms_tree::{Key, Public, Signer};
use std::alloc::Global;

/// The public keys of signers, in their order.
fn publics_of_signers(alloc: Global, signers: &[LeafSigner]) -> Result<Vec<Public>, NoMemory>
    ensures { IfOk result (λ keys. keys.items ≡ map (λ (s : Leaves). public_of_key s.key) signers.now) }
{
    let mut keys = Vec::new(alloc);
    for signer in signers {
        keys.push(signer.public())?;
    }
    Ok(keys)
}

/// The public keys of keys, in their order.
fn publics_of_keys(alloc: Global, keys: &[Key]) -> Result<Vec<Public>, NoMemory>
    ensures { IfOk result (λ publics. publics.items ≡ map (λ (k : TreeKey). public_of_key k) keys.now) }
{
    let mut publics = Vec::new(alloc);
    for key in keys {
        publics.push(key.public())?;
    }
    Ok(publics)
}

/// The ring of a script's public keys, from the signers of its replicas and the keys of its clients. The members are the script's. It
/// fails only where memory is refused.
pub fn script_ring(
    alloc: Global,
    script: &Script,
    members: &Members,
    signers: &[LeafSigner],
    clients: &[Key],
) -> Result<Keyring, NoMemory>
    requires sizes { members.now.sizes ≡ script.now.sizes }
    requires homes { members.now.homes ≡ script.now.homes }
    requires signers { signers.now ≡ signers_of script.now }
    requires clients { clients.now ≡ client_keys_of script.now }
    ensures { IfOk result (λ ring. ring ≡ ring_of script.now) }
{
    let replicas = publics_of_signers(alloc, signers)?;
    let clients = publics_of_keys(alloc, clients)?;
    keyring(alloc, members, replicas.as_slice(), clients.as_slice())
}
