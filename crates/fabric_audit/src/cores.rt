//! Replicas as they stood when a run ended.
ghost use Rattle.std.specs.Prelude.{◌≡◌, true, IfOk};
ghost use Rattle.fault_script.specs.Scripts.{keeps_limits};
ghost use Rattle.replica_log.specs.Replayed.{IsReplayable, core_after};
ghost use Rattle.run_worlds.specs.Scripts.{roster_of};

use fab_base::NoMemory;
use fault_script::Script;
use replica_core::Core;
use replica_log::replayed;
use run_words::Trace;
use run_worlds::script_members;
use std::alloc::Global;

/// The replica of a script that left this trace, as it stood when it did. It fails only where memory is refused.
pub(crate) fn core_of(alloc: Global, script: &Script, trace: &Trace) -> Result<Core, NoMemory>
    requires limits { keeps_limits script.now ≡ true }
    requires replayable { IsReplayable (roster_of script.now) trace.now }
    ensures { IfOk result (λ core. core ≡ core_after (roster_of script.now) trace.now) }
{
    let members = script_members(alloc, script)?;
    let core = replayed(alloc, &members, trace);
    drop(members);
    core
}
