//! The logs that a run starts with.
ghost use Rattle.std.specs.Prelude.{◌≡◌, ℕ, ◌<◌, true, List, Some, IfOk, IsTrue};
ghost use Rattle.fab_base.specs.Roster.{is_replica};
ghost use Rattle.fab_base.specs.declared.ids.Who.{Who};
ghost use Rattle.fab_rules.specs.Format.{signature_fits};
ghost use Rattle.lms_tree.specs.Heights.{leaf_count};
ghost use Rattle.lms_tree.specs.Keys.{public_of_key};
ghost use Rattle.lms_tree.specs.Signatures.{leaf_signature};
ghost use Rattle.bft_verify.specs.Ring.{key_of};
ghost use Rattle.replica_log.specs.Logs.{fresh_log};
ghost use Rattle.script_keys.specs.Keys.{replicas_of, signers_of};
ghost use Rattle.script_keys.specs.Rings.{ring_of};
ghost use Rattle.run_worlds.specs.Scripts.{roster_of};
ghost use Rattle.script_sim.specs.Schedules.{logs_of};

use bft_verify::Keyring;
use fab_base::{Members, NoMemory, ReplicaId};
use fault_script::Script;
use lms_leaf::LeafSigner;
use replica_log::{ReplicaLog, replica_log};
use std::alloc::Global;

/// The log of one replica.
fn log_of(
    alloc: Global,
    members: &Members,
    ring: &Keyring,
    me: ReplicaId,
    signer: LeafSigner,
) -> Result<ReplicaLog<LeafSigner>, NoMemory>
    requires member { IsTrue (is_replica members.now me) }
    requires unused { signer.used ≡ 0 }
    requires key { key_of ring.now (Who.Replica me) ≡ Some (public_of_key signer.key) }
    requires fits { (k : ℕ) (content : List ℕ) → k < leaf_count signer.key.height → signature_fits (leaf_signature signer.key k content) ≡ true }
    ensures { IfOk result (λ log. log ≡ fresh_log members.now ring.now me signer) }
{
    replica_log(alloc, members.share()?, ring.share()?, me, signer)
}

/// The log of each replica of a script, by id, before a run: each is made with the script's members and ring and with its own key, which has
/// signed nothing yet. The members, the ring, the replicas and their signers are the script's. It fails only where memory is refused.
pub fn logs_of(
    alloc: Global,
    script: &Script,
    members: &Members,
    ring: &Keyring,
    replicas: &[ReplicaId],
    signers: Vec<LeafSigner>,
) -> Result<Vec<ReplicaLog<LeafSigner>>, NoMemory>
    requires members { members.now ≡ roster_of script.now }
    requires ring { ring.now ≡ ring_of script.now }
    requires replicas { replicas.now ≡ replicas_of script.now }
    requires signers { signers.items ≡ signers_of script.now }
    ensures { IfOk result (λ logs. logs.items ≡ logs_of script.now) }
{
    let mut logs = Vec::new(alloc);
    for signer in signers {
        let log = log_of(alloc, members, ring, replicas[logs.len()], signer)?;
        logs.push(log)?;
    }
    Ok(logs)
}
