//! The ledgers of a run's correct replicas, and the longest of them. One replica's state is held at a time.
ghost use Rattle.std.specs.Prelude.{◌≡◌, ◌++◌, All, flat_map, length, IfOk, OnOk};
ghost use Rattle.std.specs.Option.{option_copied};
ghost use Rattle.replica_log.specs.Replayed.{IsReplayable};
ghost use Rattle.ledger_report.specs.Replayed.{ledger_after, ledger_text, replica_text, ledger_counted, longest_after, HasLedger, IsLedgerOf};

use crate::lines::{push_faulty, push_ledger};
use fab_base::{Members, NoMemory};
use replica_log::replayed;
use run_words::Trace;
use std::alloc::Global;

/// Adds the line of a replica's ledger, and answers how many blocks that has.
fn push_replayed(
    alloc: Global,
    text: &mut Vec<u8>,
    members: &Members,
    trace: &Trace,
) -> Result<usize, NoMemory>
    requires { IsReplayable members.now trace.now }
    ensures line { OnOk result (text.new.items ≡ text.old.items ++ ledger_text members.now trace.now) }
    ensures blocks { IfOk result (λ blocks. blocks ≡ length (ledger_after members.now trace.now)) }
{
    let core = replayed(alloc, members, trace)?;
    let blocks = push_ledger(text, members.clusters(), trace.id, core.rounds());
    drop(core);
    blocks
}

/// Adds the line of a replica, and answers how many blocks its ledger has: 0 where the replica is faulty, whose ledger doesn't count.
fn push_replica(
    alloc: Global,
    text: &mut Vec<u8>,
    members: &Members,
    trace: &Trace,
) -> Result<usize, NoMemory>
    requires { IsReplayable members.now trace.now }
    ensures line { OnOk result (text.new.items ≡ text.old.items ++ replica_text members.now trace.now) }
    ensures blocks { IfOk result (λ blocks. blocks ≡ length (ledger_counted members.now trace.now)) }
{
    match trace.fault {
        None => push_replayed(alloc, text, members, trace),
        Some(fault) => {
            push_faulty(text, trace.id, fault)?;
            Ok(0)
        }
    }
}

/// Adds a line for each replica, and answers the trace of the first correct replica with the longest ledger. `None` comes where none of
/// these ledgers has a block.
pub(crate) fn push_ledgers<'a>(
    alloc: Global,
    text: &mut Vec<u8>,
    members: &Members,
    traces: &'a [Trace],
) -> Result<Option<&'a Trace>, NoMemory>
    requires { All (HasLedger members.now) traces.now }
    ensures lines { OnOk result (text.new.items ≡ text.old.items ++ flat_map (replica_text members.now) traces.now) }
    ensures longest { IfOk result (λ best. IsLedgerOf members.now (longest_after members.now traces.now) (option_copied best)) }
{
    let mut best = None;
    let mut most = 0;
    for trace in traces {
        let blocks = push_replica(alloc, text, members, trace)?;
        if blocks > most {
            best = Some(trace);
            most = blocks;
        }
    }
    Ok(best)
}
