//! A statement that its signer never made, under a valid signature: whoever makes it has the signer's key.
ghost use Rattle.std.specs.Prelude.{◌≡◌, true};
ghost use Rattle.fault_script.specs.Scripts.{keeps_limits};

use crate::stops::Stop;
use fab_base::{Bytes, Hash32, Message, ReplicaId, Rows, Vote};
use fault_script::Script;
use lms_leaf::LeafSigner;
use lms_tree::Signer;
use msg_spell::{encode, fits, put_prepare_content};
use script_keys::replica_signers;
use std::alloc::Global;

/// Whose key is stolen, and under whose name the statement stands.
pub(crate) const VICTIM: ReplicaId = ReplicaId {
    cluster: 1,
    index: 2,
};

/// The key of the replica at this place, once more: it is made from the script's seed, as the replica's own.
fn stolen_key(alloc: Global, script: &Script, place: usize) -> Result<LeafSigner, Stop>
    requires { keeps_limits script.now ≡ true }
{
    let mut signers = replica_signers(alloc, script)?.into_vec();
    if place >= signers.len() {
        return Err(Stop::TooFew);
    }
    Ok(signers.remove(place))
}

/// A Prepare under this name, signed with this key, of a batch that nobody proposed.
fn signed_prepare(alloc: Global, signer: ReplicaId, key: &mut LeafSigner) -> Result<Message, Stop> {
    let mut vote = Vote {
        signer,
        view: 0,
        slot: 1,
        digest: Hash32 { bytes: [7; 32] },
        sig: Rows::new(alloc),
    };
    let mut content = Vec::new(alloc);
    put_prepare_content(&mut content, &vote)?;
    vote.sig = key.sign(&content)?;
    Ok(Message::Prepare(vote))
}

/// The bytes of a Prepare that the victim never said, signed with the victim's key.
pub(crate) fn forged_bytes(alloc: Global, script: &Script) -> Result<Bytes, Stop>
    requires { keeps_limits script.now ≡ true }
{
    let mut key = stolen_key(alloc, script, VICTIM.index as usize)?;
    let message = signed_prepare(alloc, VICTIM, &mut key)?;
    if !fits(&message) {
        return Err(Stop::NoSpelling);
    }
    Ok(encode(alloc, &message)?)
}
