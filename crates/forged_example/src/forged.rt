//! The transcript of logs of which one heard what was forged.
ghost use Rattle.std.specs.Prelude.{◌≡◌, true, IfOk};
ghost use Rattle.fault_script.specs.Scripts.{keeps_limits};
ghost use Rattle.run_words.specs.Lawful.{AreEach, Kept};
ghost use Rattle.run_worlds.specs.Scripts.{makers_of};
ghost use Rattle.run_worlds.specs.Endings.{IsOfLogs};

use crate::forging::{VICTIM, forged_bytes};
use crate::hearing::hear_at;
use crate::leaving::leave_all;
use crate::starting::{Start, fresh_start};
use crate::stops::Stop;
use bft_verify::verify;
use fab_base::Rows;
use fault_script::Script;
use run_words::{Traces, Transcript};
use std::alloc::Global;

/// The place of the replica that hears the statement: 1.1.
const HEARER: usize = 1;

/// What the logs of a script's replicas leave behind, of which one heard these bytes and nothing else was done.
fn traces_with(alloc: Global, script: &Script, bytes: &[u8]) -> Result<Traces, Stop>
    requires { keeps_limits script.now ≡ true }
    ensures { IfOk result (λ traces. AreEach Kept (makers_of script.now) traces) }
{
    let Start {
        members,
        ring,
        mut logs,
    } = fresh_start(alloc, script)?;
    let heard = verify(alloc, &members, &ring, bytes)?;
    if logs.len() <= HEARER {
        drop(heard);
        return Err(Stop::TooFew);
    }
    hear_at(&mut logs, HEARER, VICTIM, heard)?;
    Ok(leave_all(alloc, logs)?)
}

/// What the logs of a script's replicas leave behind, of which 1.1's heard a Prepare that 1.2's key signed and that 1.2's log never said. It
/// is a transcript that logs may hold.
pub(crate) fn forged_transcript(alloc: Global, script: Script) -> Result<Transcript, Stop>
    requires { keeps_limits script ≡ true }
    ensures script { IfOk result (λ transcript. transcript.script ≡ script) }
    ensures logs { IfOk result (λ transcript. IsOfLogs transcript) }
{
    let bytes = forged_bytes(alloc, &script)?;
    let traces = traces_with(alloc, &script, bytes.as_slice())?;
    Ok(Transcript {
        script,
        traces,
        moments: Rows::new(alloc),
        timeouts_left: 0,
    })
}
