//! What logs leave behind.
ghost use Rattle.std.specs.Prelude.{List, IfOk};
ghost use Rattle.run_words.specs.Journal.{Maker};
ghost use Rattle.run_words.specs.Lawful.{AreEach, Kept};
ghost use Rattle.forged_example.specs.Standing.{IsStanding, AreStanding};

use fab_base::{NoMemory, Rows};
use lms_leaf::LeafSigner;
use replica_log::ReplicaLog;
use run_words::{Party, Trace, Traces};
use std::alloc::Global;

/// What a log leaves behind: of one that stands it is a trace that its replica may leave.
fn leave(log: ReplicaLog<LeafSigner>) -> Result<Trace, NoMemory>
    ensures { IfOk result (λ trace. (m : Maker) → IsStanding m log → Kept m trace) }
{
    log.trace()
}

/// What each log leaves behind.
pub(crate) fn leave_all(
    alloc: Global,
    logs: Vec<ReplicaLog<LeafSigner>>,
) -> Result<Traces, NoMemory>
    ensures { IfOk result (λ traces. (makers : List Maker) → AreStanding makers logs.items → AreEach Kept makers traces) }
{
    let mut traces = Rows::new(alloc);
    for log in logs {
        let trace = leave(log)?;
        traces.push(trace)?;
    }
    Ok(traces)
}
