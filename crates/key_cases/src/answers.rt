//! What is written of a script.
ghost use Rattle.std.specs.Prelude.{◌≡◌, true};
ghost use Rattle.fault_script.specs.Scripts.{keeps_limits};

use fault_script::Script;
use lms_tree::{Public, Signer, write_public};
use script_keys::{client_keys, replica_signers, request_copies, signed_requests};
use sha2::{Digest, Sha256};
use std::alloc::{AllocError, Global};

/// SHA-256 of these bytes, in hex.
fn digest(alloc: Global, bytes: &[u8]) -> Result<String, AllocError> {
    hex::encode(alloc, &Sha256::digest(bytes))
}

/// SHA-256 of a public key, in hex.
fn digest_of_key(alloc: Global, key: &Public) -> Result<String, AllocError> {
    digest(alloc, &write_public(key))
}

/// The chain after the block of one request, from the chain before.
fn linked(chain: &[u8; 32], round: u64, cluster: u8, load: &[u8]) -> [u8; 32] {
    let batch: [u8; 32] = Sha256::digest(load);
    let mut hasher = Sha256::new();
    hasher.update(chain);
    hasher.update(round.to_be_bytes());
    hasher.update([cluster]);
    hasher.update(batch);
    hasher.finalize()
}

/// All lines of a script.
pub(crate) fn lines_of(alloc: Global, script: &Script) -> Result<Vec<String>, AllocError>
    requires { keeps_limits script.now ≡ true }
{
    let signers = replica_signers(alloc, script)?;
    let clients = client_keys(alloc, script)?;
    let requests = signed_requests(alloc, script, clients.as_slice())?;
    let copies = request_copies(alloc, script, requests.as_slice())?;
    let mut lines = Vec::new(alloc);
    for signer in signers.as_slice() {
        let key = digest_of_key(alloc, &signer.public())?;
        lines.push(format!(in alloc; "replica key {key}")?)?;
    }
    for key in clients.as_slice() {
        let key = digest_of_key(alloc, &key.public())?;
        lines.push(format!(in alloc; "client key {key}")?)?;
    }
    let mut chain = [0u8; 32];
    let mut round = 0u64;
    for (to, copy) in copies.as_slice() {
        let (cluster, index, place) = (to.cluster, to.index, copy.number);
        if place == round {
            round = round.saturating_add(1);
            chain = linked(&chain, round, cluster, copy.load.as_slice());
            let request = digest(alloc, copy.load.as_slice())?;
            let after = hex::encode(alloc, &chain)?;
            lines.push(format!(in alloc; "request {place} {request}")?)?;
            lines.push(format!(in alloc; "chain {round} {after}")?)?;
        }
        lines.push(format!(in alloc; "copy {place} to {cluster}.{index}")?)?;
    }
    Ok(lines)
}
