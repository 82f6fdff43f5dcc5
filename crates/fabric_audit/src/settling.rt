//! Whether anything still moves.
//!
//! Nothing moves where each replica has heard or refused whatever was put to it, no event but a Timeout would make an entry at any, and no
//! patience is left; and where fewer timeouts came to something than patience was used, no Timeout would make an entry either. A replica
//! never takes more copies than were put to it, so all are taken where all replicas together took as many as were put.
ghost use Rattle.std.specs.Prelude.{◌≡◌, ◌==◌, ◌&&◌, ◌↔◌, true, nat_le, length, IfOk, IsTrue};
ghost use Rattle.std.specs.List.{All, list_all};
ghost use Rattle.fab_base.specs.declared.ids.ReplicaId.{ReplicaId};
ghost use Rattle.fab_base.specs.declared.ids.Who.{Who};
ghost use Rattle.fab_rules.specs.Statements.{signer_of};
ghost use Rattle.fab_machine.specs.Items.{is_own};
ghost use Rattle.fab_machine.specs.Step.{first};
ghost use Rattle.fault_script.specs.Scripts.{keeps_limits};
ghost use Rattle.run_words.specs.Journal.{needs_leaf};
ghost use Rattle.replica_log.specs.Replayed.{IsReplayable};
ghost use Rattle.script_keys.specs.Keys.{leaves_of};
ghost use Rattle.run_worlds.specs.Scripts.{roster_of};
ghost use Rattle.run_worlds.specs.Endings.{IsRunOf, IsSettled};
ghost use Rattle.fabric_audit.specs.Counts.{all_taken, all_put, are_tried};
ghost use Rattle.fabric_audit.specs.Still.{is_still_at, is_still};

use crate::cores::core_of;
use crate::counting::{copies, plus, sent_by_all, taken, timed, timed_out_at_all};
use bft_msg::signer;
use fab_base::{Message, NoMemory, ReplicaId, Who};
use fault_script::Script;
use lms_tree::Height;
use replica_core::{Core, Mover};
use run_words::{Trace, Transcript};
use run_worlds::script_members;
use std::alloc::Global;

/// Whether the replica itself signs the message.
fn signs(replica: ReplicaId, message: &Message) -> bool
    ensures { result ≡ is_own replica (signer_of message.now) }
{
    signer(message) == Some(Who::Replica(replica))
}

/// How many signatures the key of a replica gives.
fn leaves(script: &Script) -> u32
    ensures { (i : ReplicaId) → result ≡ leaves_of script.now (Who.Replica i) }
{
    let height = if script.height == 5 {
        Height::H5
    } else {
        Height::H10
    };
    height.leaf_count()
}

/// Whether the first item that waits is to be signed by this replica.
fn needs_leaf(replica: ReplicaId, core: &Core) -> bool
    ensures { result ≡ needs_leaf replica (first core.now.state) }
{
    match core.first() {
        Some(item) => signs(replica, &item.message),
        None => false,
    }
}

/// Whether no event would make an entry at a replica with so many leaves, of which it used so many. Timeout is one of them where it is
/// asked about.
fn is_still_at(replica: ReplicaId, core: &Core, leaves: u64, used: u64, timeouts: bool) -> bool
    ensures { result ≡ is_still_at replica core.now leaves used timeouts }
{
    !core.moves(Mover::Batch)
        && !core.moves(Mover::Nudge)
        && !core.moves(Mover::Execute)
        && !core.moves(Mover::Checkpoint)
        && (!core.moves(Mover::Emit) || (needs_leaf(replica, core) && leaves <= used))
        && !(timeouts && core.moves(Mover::Timeout))
}

/// Whether no event would make an entry at the replica that left this trace. Timeout is one of them where it is asked about.
fn is_still(alloc: Global, script: &Script, trace: &Trace, timeouts: bool) -> Result<bool, NoMemory>
    requires limits { keeps_limits script.now ≡ true }
    requires replayable { IsReplayable (roster_of script.now) trace.now }
    ensures { IfOk result (λ still. still ≡ is_still script.now timeouts trace.now) }
{
    let core = core_of(alloc, script, trace)?;
    let leaves = leaves(script) as u64;
    let used = trace.signed.len() as u64;
    let still = is_still_at(trace.id, &core, leaves, used, timeouts);
    drop(core);
    Ok(still)
}

/// Whether no event would make an entry at any of the replicas. Timeout is one of them where it is asked about.
fn are_still(
    alloc: Global,
    script: &Script,
    traces: &[Trace],
    timeouts: bool,
) -> Result<bool, NoMemory>
    requires limits { keeps_limits script.now ≡ true }
    requires replayable { All (IsReplayable (roster_of script.now)) traces.now }
    ensures { IfOk result (λ still. still ≡ list_all (is_still script.now timeouts) traces.now) }
{
    for trace in traces {
        if !is_still(alloc, script, trace, timeouts)? {
            return Ok(false);
        }
    }
    Ok(true)
}

/// Whether as many copies were taken as were put.
fn all_taken(alloc: Global, script: &Script, traces: &[Trace]) -> Result<bool, NoMemory>
    requires { keeps_limits script.now ≡ true }
    ensures { IfOk result (λ all. all ≡ (all_taken traces.now == all_put script.now traces.now)) }
{
    let members = script_members(alloc, script)?;
    let asked = copies(&members, script.requests.as_slice())?;
    let put = plus(asked, sent_by_all(&members, traces)?)?;
    Ok(taken(traces)? == put)
}

/// Whether as many timeouts came to something as quiet moments ended in them, or more.
fn are_tried(transcript: &Transcript) -> Result<bool, NoMemory>
    ensures { IfOk result (λ tried. tried ≡ are_tried transcript.now) }
{
    let used = timed(transcript.moments.as_slice()) as u64;
    Ok(used <= timed_out_at_all(transcript.traces.as_slice())?)
}

/// Whether nothing moves any more: all that was put is heard or refused, no event would make an entry, and no patience is left. Timeouts
/// are asked about only where fewer of them came to something than patience was used. It fails only where memory is refused.
pub(crate) fn is_settled(alloc: Global, transcript: &Transcript) -> Result<bool, NoMemory>
    requires { IsRunOf transcript.now.script transcript.now }
    ensures { IfOk result (λ settled. IsTrue settled ↔ IsSettled transcript.now) }
{
    if transcript.timeouts_left > 0 {
        return Ok(false);
    }
    let script = &transcript.script;
    let traces = transcript.traces.as_slice();
    Ok(
        all_taken(alloc, script, traces)?
            && are_still(alloc, script, traces, !are_tried(transcript)?)?,
    )
}
