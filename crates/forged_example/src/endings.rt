//! What is shown of a transcript that evidence breaks.
ghost use Rattle.std.specs.Prelude.{◌≡◌, IfOk};
ghost use Rattle.run_words.specs.declared.ends.End as ends;
ghost use Rattle.run_worlds.specs.Endings.{IsOfLogs};
ghost use Rattle.run_worlds.specs.Sights.{first_evidence};
ghost use Rattle.ledger_report.specs.Report.{report_text};
ghost use Rattle.fabric_run.specs.Simulated.{exit_of};
ghost use Rattle.fabric_run.specs.Statuses.{status_of};
ghost use Rattle.forged_example.specs.Showing.{IsShown};

use fab_base::{Bytes, NoMemory};
use fabric_audit::audit;
use fabric_run::Exit;
use ledger_report::report;
use run_words::{End, Evidence, Transcript};
use std::alloc::Global;

/// A report, and the status with which the program ends once it is written.
#[derive(Drop)]
pub(crate) struct Ending {
    /// The report.
    pub(crate) text: Bytes,
    /// The status.
    pub(crate) status: u8,
}

/// The status of `fabric` where a run ended so.
fn status_of(end: End) -> u8
    ensures { result ≡ status_of (exit_of end) }
{
    let exit = match end {
        End::Done => Exit::Done,
        End::Stalled { client, stamp } => Exit::Stalled { client, stamp },
        End::Spent { entries } => Exit::Spent { entries },
        End::Broken(evidence) => Exit::Broken(evidence),
    };
    exit.status()
}

/// The report of a transcript that this evidence breaks, and the status.
fn broken(alloc: Global, transcript: &Transcript, evidence: Evidence) -> Result<Ending, NoMemory>
    requires { IsOfLogs transcript.now }
    ensures text { IfOk result (λ ending. ending.text ≡ report_text transcript.now (ends.End.Broken evidence)) }
    ensures status { IfOk result (λ ending. ending.status ≡ 9) }
{
    let end = End::Broken(evidence);
    let text = report(alloc, transcript, &end)?;
    let status = status_of(end);
    Ok(Ending { text, status })
}

/// The report of a transcript that evidence breaks, and the status. `None` comes exactly where the audit finds no evidence.
pub(crate) fn ending_of(alloc: Global, transcript: &Transcript) -> Result<Option<Ending>, NoMemory>
    requires { IsOfLogs transcript.now }
    ensures { IfOk result (λ ending. IsShown transcript.now (first_evidence transcript.now) ending) }
{
    match audit(alloc, transcript)? {
        Some(evidence) => Ok(Some(broken(alloc, transcript, evidence)?)),
        None => Ok(None),
    }
}
