//! `plain`: a script's requests, applied in order to one table.
ghost use Rattle.std.specs.Prelude.{◌≡◌, true, IfOk};
ghost use Rattle.fault_script.specs.Scripts.{keeps_limits};
ghost use Rattle.fabric_run.specs.Plain.{requests_of, plain_text, PlainMakes};
ghost use Rattle.fabric_run.specs.Exits.{seen, Ends, IsRun};

use crate::exits::Exit;
use crate::transfer::{hand_over, script_from};
use fab_base::{Batch, Bytes, NoMemory, Rows};
use fab_io::{Sink, Source};
use fault_script::Script;
use ledger_report::{push_done, push_replies, push_table};
use seq_table::table;
use std::alloc::Global;

/// The requests of a script, in its order.
fn requests_of(alloc: Global, script: Script) -> Result<Batch, NoMemory>
    ensures { IfOk result (λ requests. requests ≡ requests_of script) }
{
    let wishes = script.requests.into_vec();
    let mut requests = Vec::with_capacity(alloc, wishes.len())?;
    for wish in wishes {
        requests.push(wish.into_request(alloc))?;
    }
    Ok(Rows::from_vec(requests))
}

/// The text of a script: a line for each request, the table, and the end.
fn text_of(alloc: Global, script: Script) -> Result<Bytes, NoMemory>
    requires { keeps_limits script ≡ true }
    ensures { IfOk result (λ text. text ≡ plain_text script) }
{
    let mut table = table(alloc, script.homes.len() as u8)?;
    let requests = requests_of(alloc, script)?;
    let outcomes = table.run(&requests)?;
    let entries = table.entries()?;
    let mut text = Vec::new(alloc);
    push_replies(&mut text, requests.as_slice(), outcomes.as_slice())?;
    push_table(&mut text, entries.as_slice())?;
    push_done(&mut text)?;
    Ok(Rows::from_vec(text))
}

/// What `plain` does.
fn run<S: Source, K: Sink>(alloc: Global, script: &mut S, report: &mut K) -> Exit
    ensures { Ends PlainMakes (seen (S.supply script.old) (K.intake report.old)) (seen (S.supply script.new) (K.intake report.new)) result }
{
    let script = match script_from(alloc, script) {
        Ok(script) => script,
        Err(exit) => return exit,
    };
    let Ok(text) = text_of(alloc, script) else {
        return Exit::NoMemory;
    };
    hand_over(report, text.as_slice(), Exit::Done)
}

/// Reads a script to its end, applies its requests in order to an empty table, and writes a line for each request and the table
/// that they leave.
///
/// `Done` comes where all that was written. `ReadFault` and `WriteFault` come only where the device's count of faults rose in this
/// call or stands at its last value; at a `WriteFault` the sink took the stated number of bytes of the text, from its front.
/// `TooLong` comes exactly where the source gave one byte more than `SCRIPT_BYTES`. `BadScript` names the first bad line and its
/// first cause. `NoMemory` comes only where memory is refused. But for `Done` and `WriteFault` nothing was written.
pub fn plain<S: Source, K: Sink>(alloc: Global, script: &mut S, report: &mut K) -> Exit
    ensures { IsRun PlainMakes (seen (S.supply script.old) (K.intake report.old)) (seen (S.supply script.new) (K.intake report.new)) result }
{
    run(alloc, script, report)
}
