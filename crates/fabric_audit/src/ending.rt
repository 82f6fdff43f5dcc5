//! How a run ended.
ghost use Rattle.std.specs.Prelude.{◌≡◌, IfOk};
ghost use Rattle.run_worlds.specs.Endings.{IsRunOf, IsEnd, IsEndBy, first_missing};

use crate::auditing::audit;
use crate::counting::entries;
use crate::effects::first_missing;
use crate::settling::is_settled;
use fab_base::NoMemory;
use run_words::{End, Transcript};
use std::alloc::Global;

/// How a run without evidence ended.
fn end_without_evidence(alloc: Global, transcript: &Transcript) -> Result<End, NoMemory>
    requires { IsRunOf transcript.now.script transcript.now }
    ensures { IfOk result (λ end. IsEndBy transcript.now end (first_missing transcript.now)) }
{
    let Some(missing) = first_missing(alloc, transcript)? else {
        return Ok(End::Done);
    };
    if is_settled(alloc, transcript)? {
        return Ok(End::Stalled {
            client: missing.client,
            stamp: missing.stamp,
        });
    }
    let entries = entries(transcript.traces.as_slice())?;
    Ok(End::Spent { entries })
}

/// How a run ended: the first that applies of `Broken` (the audit finds evidence), `Done` (each request of the script took effect in the
/// ledger of each correct replica), `Stalled` (nothing moves any more; with the first request without effect in some correct replica's
/// ledger) and `Spent` (the run was cut off; with the number of entries). It fails only where memory is refused.
pub fn end_of(alloc: Global, transcript: &Transcript) -> Result<End, NoMemory>
    requires { IsRunOf transcript.now.script transcript.now }
    ensures { IfOk result (λ end. IsEnd transcript.now end) }
{
    match audit(alloc, transcript)? {
        Some(evidence) => Ok(End::Broken(evidence)),
        None => end_without_evidence(alloc, transcript),
    }
}
