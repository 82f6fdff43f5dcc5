//! The report of a run.
ghost use Rattle.std.specs.Prelude.{◌≡◌, IfOk};
ghost use Rattle.run_worlds.specs.Endings.{IsOfLogs};
ghost use Rattle.ledger_report.specs.Report.{report_text};

use crate::ledgers::push_ledgers;
use crate::lines::{push_end, push_head};
use crate::runs::push_longest;
use fab_base::{Bytes, NoMemory, Rows};
use run_words::{End, Transcript};
use run_worlds::script_members;
use std::alloc::Global;

/// The report of a run that ended so, of any transcript that logs may hold. It fails only where memory is refused.
///
/// The time is that of one replay of each correct replica's journal, and of a second one of the journal with the longest ledger. One
/// replica's state is held at a time.
pub fn report(alloc: Global, transcript: &Transcript, end: &End) -> Result<Bytes, NoMemory>
    requires { IsOfLogs transcript.now }
    ensures { IfOk result (λ text. text ≡ report_text transcript.now end.now) }
{
    let script = &transcript.script;
    let traces = transcript.traces.as_slice();
    let members = script_members(alloc, script)?;
    let clients = script.homes.len() as u8;
    let mut text = Vec::new(alloc);
    push_head(&mut text, script.sizes.as_slice())?;
    let longest = push_ledgers(alloc, &mut text, &members, traces)?;
    push_longest(alloc, &mut text, &members, clients, traces, longest)?;
    push_end(&mut text, end)?;
    Ok(Rows::from_vec(text))
}
