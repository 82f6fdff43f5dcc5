//! The top call.
ghost use Rattle.std.specs.Prelude.{◌≡◌, ◌↔◌, map, string_bytes, Some, None};
ghost use Rattle.run_words.specs.Runs.{empty_transcript};
ghost use Rattle.fabric_run.specs.Commands.{command_of};
ghost use Rattle.fabric_run.specs.Plain.{PlainMakes};
ghost use Rattle.fabric_run.specs.Exits.{seen, IsRun};
ghost use Rattle.fabric_run.specs.Simulated.{IsSimulated};

use crate::command::{Command, command_of};
use crate::exits::Exit;
use crate::sequential::plain;
use crate::simulation::simulate_script;
use fab_io::{Sink, Source};
use run_words::Transcript;
use std::alloc::Global;

/// Runs the command that the words spell, over a source of the script and a sink of the report.
///
/// `Usage` comes exactly where they spell none; then nothing is read or written. Of the other exits `plain` and `simulate_script` tell.
/// `kept` becomes the transcript of a run of `sim`; no other command touches it.
pub fn fabric<S: Source, K: Sink>(
    alloc: Global,
    words: &[String],
    script: &mut S,
    report: &mut K,
    kept: &mut Transcript,
) -> Exit
    requires empty { kept.old ≡ empty_transcript }
    ensures usage { (result ≡ Exit.Usage) ↔ (command_of (map string_bytes words.now) ≡ None) }
    ensures untouched { result ≡ Exit.Usage → (script.new ≡ script.old) × (report.new ≡ report.old) × (kept.new ≡ kept.old) }
    ensures plain { command_of (map string_bytes words.now) ≡ Some Command.Plain → IsRun PlainMakes
        (seen (S.supply script.old) (K.intake report.old)) (seen (S.supply script.new) (K.intake report.new)) result × (kept.new ≡ kept.old) }
    ensures sim { command_of (map string_bytes words.now) ≡ Some Command.Sim → IsSimulated kept.old kept.new
        (seen (S.supply script.old) (K.intake report.old)) (seen (S.supply script.new) (K.intake report.new)) result }
{
    match command_of(words) {
        None => Exit::Usage,
        Some(Command::Plain) => plain(alloc, script, report),
        Some(Command::Sim) => simulate_script(alloc, script, report, kept),
    }
}
