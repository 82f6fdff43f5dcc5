//! `sim`: a script's replicas, run to the end.
ghost use Rattle.std.specs.Prelude.{◌≡◌, true, IfOk};
ghost use Rattle.fault_script.specs.Scripts.{keeps_limits};
ghost use Rattle.run_words.specs.Runs.{empty_transcript};
ghost use Rattle.fabric_run.specs.Exits.{seen, Ends, IsRun};
ghost use Rattle.fabric_run.specs.Simulated.{exit_of, IsSimulation, SimMakes, KeepsRun, IsSafeAt, IsPrintedAt, HasCauseAt};

use crate::exits::Exit;
use crate::transfer::{hand_over, script_from};
use fab_base::{Bytes, NoMemory};
use fab_io::{Sink, Source};
use fabric_audit::end_of;
use fault_script::Script;
use ledger_report::report;
use run_words::{End, Transcript};
use script_sim::run_script;
use std::alloc::Global;

/// What a script's run comes to.
#[derive(Drop)]
struct Simulation {
    /// What its replicas left behind.
    transcript: Transcript,
    /// How it ended.
    end: End,
    /// Its report.
    text: Bytes,
}

/// The exit of a run that ended so, once its report is written.
fn exit_of(end: End) -> Exit
    ensures { result ≡ exit_of end }
{
    match end {
        End::Done => Exit::Done,
        End::Stalled { client, stamp } => Exit::Stalled { client, stamp },
        End::Spent { entries } => Exit::Spent { entries },
        End::Broken(evidence) => Exit::Broken(evidence),
    }
}

/// Runs a script, sees how the run ended, and makes the report.
fn simulation_of(alloc: Global, script: Script) -> Result<Simulation, NoMemory>
    requires { keeps_limits script ≡ true }
    ensures { IfOk result (λ it. IsSimulation script it.transcript it.end it.text) }
{
    let transcript = run_script(alloc, script)?;
    let end = end_of(alloc, &transcript)?;
    let text = report(alloc, &transcript, &end)?;
    Ok(Simulation {
        transcript,
        end,
        text,
    })
}

/// What `sim` does.
fn run<S: Source, K: Sink>(
    alloc: Global,
    script: &mut S,
    report: &mut K,
    kept: &mut Transcript,
) -> Exit
    ensures ends { Ends (SimMakes kept.new) (seen (S.supply script.old) (K.intake report.old)) (seen (S.supply script.new) (K.intake report.new)) result }
    ensures kept { KeepsRun (S.supply script.old) (S.supply script.new) kept.old kept.new result }
{
    let script = match script_from(alloc, script) {
        Ok(script) => script,
        Err(exit) => return exit,
    };
    let Ok(simulation) = simulation_of(alloc, script) else {
        return Exit::NoMemory;
    };
    *kept = simulation.transcript;
    let exit = exit_of(simulation.end);
    hand_over(report, simulation.text.as_slice(), exit)
}

/// Reads a script to its end, runs its replicas in the one order that its seed fixes, and writes the report of the run: each replica's
/// ledger, the longest one with what its requests came to, the table, and how the run ended.
///
/// Once the report is written whole, the exit is how the run ended: `Done` where each request took effect in each replica's ledger,
/// `Stalled` where nothing moves any more and one didn't, `Spent` where the run was cut off before, `Broken` where a premise under which
/// ledgers agree doesn't hold of it. The other exits come as with `plain` (`run`). `kept`, at first that of no run,
/// becomes the transcript of the run before the first byte is written, and stays as it was where the script isn't read, or memory is
/// refused (`kept`).
///
/// At `Done`, `Stalled` and `Spent` the replicas agree, with no premise left: their ledgers are prefixes of one, nothing in it takes effect
/// twice or without its client, and what enough replicas told of a block is so (`safe`). The ledgers that the report prints are the ones of
/// which this is said (`printed`).
///
/// A run ends done, or has a cause (`cause`): at `Stalled` some replica has used up its key or was timed out, at `Spent` the run has just as
/// many entries as its script allows, and at `Broken` two different batches of the run share a digest. No run is broken by a forged statement.
/// Where the script has no timeout lines, whatever its patience, a stalled run has a used-up key; and where its keys have leaves and it allows
/// entries enough (`FitsScript` of `budget_laws`), the run is neither stalled nor spent.
pub fn simulate_script<S: Source, K: Sink>(
    alloc: Global,
    script: &mut S,
    report: &mut K,
    kept: &mut Transcript,
) -> Exit
    requires empty { kept.old ≡ empty_transcript }
    ensures run { IsRun (SimMakes kept.new) (seen (S.supply script.old) (K.intake report.old)) (seen (S.supply script.new) (K.intake report.new)) result }
    ensures kept { KeepsRun (S.supply script.old) (S.supply script.new) kept.old kept.new result }
    ensures safe { IsSafeAt kept.new result }
    ensures printed { IsPrintedAt kept.new result }
    ensures cause { HasCauseAt kept.new result }
{
    run(alloc, script, report, kept)
}
