//! The logs of a script's replicas, before a run.
ghost use Rattle.std.specs.Prelude.{◌≡◌, true, IfOk};
ghost use Rattle.fault_script.specs.Scripts.{keeps_limits};
ghost use Rattle.script_keys.specs.Rings.{ring_of};
ghost use Rattle.run_worlds.specs.Scripts.{roster_of};
ghost use Rattle.script_sim.specs.Schedules.{logs_of};

use bft_verify::Keyring;
use fab_base::{Members, NoMemory};
use fault_script::Script;
use lms_leaf::LeafSigner;
use replica_log::ReplicaLog;
use run_worlds::script_members;
use script_keys::{client_keys, replica_signers, script_replicas, script_ring};
use script_sim::logs_of;
use std::alloc::Global;

/// Logs, and what they were made with.
#[derive(Drop)]
pub(crate) struct Start {
    /// The members of the fabric.
    pub(crate) members: Members,
    /// The keys of all who sign.
    pub(crate) ring: Keyring,
    /// One log for each replica, by id.
    pub(crate) logs: Vec<ReplicaLog<LeafSigner>>,
}

/// The logs of a script's replicas, which have done nothing yet.
pub(crate) fn fresh_start(alloc: Global, script: &Script) -> Result<Start, NoMemory>
    requires { keeps_limits script.now ≡ true }
    ensures members { IfOk result (λ it. it.members ≡ roster_of script.now) }
    ensures ring { IfOk result (λ it. it.ring ≡ ring_of script.now) }
    ensures logs { IfOk result (λ it. it.logs.items ≡ logs_of script.now) }
{
    let members = script_members(alloc, script)?;
    let signers = replica_signers(alloc, script)?;
    let clients = client_keys(alloc, script)?;
    let ring = script_ring(
        alloc,
        script,
        &members,
        signers.as_slice(),
        clients.as_slice(),
    )?;
    let replicas = script_replicas(alloc, script)?;
    let logs = logs_of(
        alloc,
        script,
        &members,
        &ring,
        replicas.as_slice(),
        signers.into_vec(),
    )?;
    Ok(Start {
        members,
        ring,
        logs,
    })
}
