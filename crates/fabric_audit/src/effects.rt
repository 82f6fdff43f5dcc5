//! What took effect.
//!
//! A client's stamps take effect in order, so what took effect in a ledger is told by the last effective stamp of each client.
ghost use Rattle.std.specs.Prelude.{◌≡◌, true, length, IfOk};
ghost use Rattle.std.specs.List.{All, prefix_len};
ghost use Rattle.std.specs.Option.{option_copied};
ghost use Rattle.fault_script.specs.Scripts.{keeps_limits};
ghost use Rattle.replica_log.specs.Replayed.{IsReplayable};
ghost use Rattle.run_worlds.specs.Scripts.{roster_of};
ghost use Rattle.run_worlds.specs.Endings.{IsOfLogs, first_missing};
ghost use Rattle.fabric_audit.specs.Stamps.{NUMBERS, counted, counted_all, last_stamps, stamps_of, is_served, served_by};

use crate::cores::core_of;
use crate::correct::is_correct;
use fab_base::{NoMemory, Request};
use fab_rules::Block;
use fault_script::{Script, Wish};
use run_words::{Trace, Transcript};
use std::alloc::Global;

/// How many numbers a client may have.
const NUMBERS: usize = 256;

/// Counts a request: where it has the next stamp of its client, that stamp is the client's last one.
fn count(stamps: &mut [u32], request: &Request)
    requires { length stamps.old ≡ NUMBERS }
    ensures { stamps.new ≡ counted stamps.old request.now }
{
    let last = &mut stamps[request.client.number as usize];
    if request.stamp > *last && request.stamp - *last == 1 {
        *last = request.stamp;
    }
}

/// Counts the requests of a batch, in order.
fn count_all(stamps: &mut [u32], batch: &[Request])
    requires { length stamps.old ≡ NUMBERS }
    ensures { stamps.new ≡ counted_all stamps.old batch.now }
{
    for request in batch {
        count(stamps, request);
    }
}

/// The last effective stamp of each client after the blocks of a ledger, by the clients' numbers; 0 where none took effect.
fn last_stamps(blocks: &[Block]) -> [u32; NUMBERS]
    ensures { result ≡ last_stamps blocks.now }
{
    let mut stamps = [0; NUMBERS];
    for block in blocks {
        count_all(&mut stamps, block.batch.as_slice());
    }
    stamps
}

/// The same after the ledger of the replica that left this trace.
fn stamps_of(alloc: Global, script: &Script, trace: &Trace) -> Result<[u32; NUMBERS], NoMemory>
    requires limits { keeps_limits script.now ≡ true }
    requires replayable { IsReplayable (roster_of script.now) trace.now }
    ensures { IfOk result (λ stamps. stamps ≡ stamps_of script.now trace.now) }
{
    let core = core_of(alloc, script, trace)?;
    let stamps = last_stamps(core.rounds().ledger().as_slice());
    drop(core);
    Ok(stamps)
}

/// How many requests, from the first on, took effect by these last stamps.
fn served(stamps: &[u32], requests: &[Wish]) -> usize
    requires { length stamps.now ≡ NUMBERS }
    ensures { result ≡ prefix_len (is_served stamps.now) requests.now }
{
    for (place, wish) in requests.iter().enumerate() {
        if wish.stamp > stamps[wish.client.number as usize] {
            return place;
        }
    }
    requests.len()
}

/// How many requests of the script, from the first on, took effect in the ledger of each correct one of these replicas.
fn served_by_all(alloc: Global, script: &Script, traces: &[Trace]) -> Result<usize, NoMemory>
    requires limits { keeps_limits script.now ≡ true }
    requires replayable { All (IsReplayable (roster_of script.now)) traces.now }
    ensures { IfOk result (λ count. count ≡ prefix_len (served_by script.now traces.now) script.now.requests) }
{
    let requests = script.requests.as_slice();
    let mut count = requests.len();
    for trace in traces {
        if is_correct(trace) {
            let stamps = stamps_of(alloc, script, trace)?;
            count = served(&stamps, &requests[..count]);
        }
    }
    Ok(count)
}

/// The first request of the script that didn't take effect in the ledger of each correct replica, `None` exactly where each did. It fails
/// only where memory is refused.
pub(crate) fn first_missing(
    alloc: Global,
    transcript: &Transcript,
) -> Result<Option<&Wish>, NoMemory>
    requires { IsOfLogs transcript.now }
    ensures { IfOk result (λ missing. option_copied missing ≡ first_missing transcript.now) }
{
    let script = &transcript.script;
    let served = served_by_all(alloc, script, transcript.traces.as_slice())?;
    Ok(script.requests.get(served))
}
