//! The run of a script.
ghost use Rattle.std.specs.Prelude.{◌≡◌, true, IfOk};
ghost use Rattle.fault_script.specs.Scripts.{keeps_limits};
ghost use Rattle.run_worlds.specs.Endings.{IsRunOf};
ghost use Rattle.script_sim.specs.Schedules.{IsScheduleOf};

use crate::logs::logs_of;
use fab_base::NoMemory;
use fault_script::Script;
use run_words::Transcript;
use run_worlds::script_members;
use script_keys::{
    client_keys, replica_signers, request_copies, script_replicas, script_ring, signed_requests,
};
use sim_sched::simulate;
use std::alloc::Global;

/// Runs a script: the transcript of the one run that its rules fix (`schedule`), which is lawful (`run`). The script keeps its limits. It
/// fails only where memory is refused.
pub fn run_script(alloc: Global, script: Script) -> Result<Transcript, NoMemory>
    requires { keeps_limits script ≡ true }
    ensures schedule { IfOk result (λ transcript. IsScheduleOf script transcript) }
    ensures run { IfOk result (λ transcript. IsRunOf script transcript) }
{
    let members = script_members(alloc, &script)?;
    let signers = replica_signers(alloc, &script)?;
    let clients = client_keys(alloc, &script)?;
    let ring = script_ring(
        alloc,
        &script,
        &members,
        signers.as_slice(),
        clients.as_slice(),
    )?;
    let requests = signed_requests(alloc, &script, clients.as_slice())?;
    let copies = request_copies(alloc, &script, requests.as_slice())?;
    let replicas = script_replicas(alloc, &script)?;
    let logs = logs_of(
        alloc,
        &script,
        &members,
        &ring,
        replicas.as_slice(),
        signers.into_vec(),
    )?;
    let (transcript, _spent) = simulate(
        alloc,
        script,
        replicas.as_slice(),
        logs,
        copies.into_vec(),
        &members,
        &ring,
    )?;
    Ok(transcript)
}
