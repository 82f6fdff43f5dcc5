//! The run of the longest ledger: its blocks' lines and the table.
ghost use Rattle.std.specs.Prelude.{◌≡◌, ◌++◌, length, OnOk};
ghost use Rattle.std.specs.Option.{option_copied};
ghost use Rattle.fab_base.specs.Table.{empty_state};
ghost use Rattle.ledger_report.specs.Replayed.{ledger_after, longest_after, HasLedger, IsLedgerOf};
ghost use Rattle.ledger_report.specs.Walking.{run_text, IsWhole};

use crate::blocks::push_blocks;
use crate::notes::told_by_all;
use crate::text::push_table;
use fab_base::{Members, NoMemory};
use replica_log::replayed;
use round_exec::Rounds;
use run_words::Trace;
use seq_table::table;
use std::alloc::Global;

/// Adds the lines of a ledger's blocks, and then the table that they leave.
fn push_rounds(
    alloc: Global,
    text: &mut Vec<u8>,
    traces: &[Trace],
    rounds: &Rounds,
    clusters: u8,
    clients: u8,
) -> Result<(), NoMemory>
    requires whole { IsWhole rounds.now }
    requires clusters { clusters ≡ rounds.now.clusters }
    requires clients { clients ≡ rounds.now.clients }
    ensures { OnOk result (text.new.items ≡ text.old.items ++ run_text traces.now (empty_state rounds.now.clients) rounds.now.rounds.blocks) }
{
    let told = told_by_all(alloc, traces)?;
    let mut table = table(alloc, clients)?;
    push_blocks(text, told.as_slice(), rounds, clusters, &mut table)?;
    let entries = table.entries()?;
    push_table(text, entries.as_slice())
}

/// Adds the lines of the blocks of a replica's ledger, and then the table that they leave, of so many clients.
fn push_run(
    alloc: Global,
    text: &mut Vec<u8>,
    members: &Members,
    clients: u8,
    traces: &[Trace],
    trace: &Trace,
) -> Result<(), NoMemory>
    requires ledger { HasLedger members.now trace.now }
    requires clients { clients ≡ length members.now.homes }
    ensures { OnOk result (text.new.items ≡ text.old.items ++ run_text traces.now (empty_state (length members.now.homes)) (ledger_after members.now trace.now)) }
{
    let core = replayed(alloc, members, trace)?;
    let pushed = push_rounds(
        alloc,
        text,
        traces,
        core.rounds(),
        members.clusters(),
        clients,
    );
    drop(core);
    pushed
}

/// Adds the lines of the longest ledger's blocks, and then the table that they leave, of so many clients. Where no ledger has a block,
/// there is no trace.
pub(crate) fn push_longest(
    alloc: Global,
    text: &mut Vec<u8>,
    members: &Members,
    clients: u8,
    traces: &[Trace],
    longest: Option<&Trace>,
) -> Result<(), NoMemory>
    requires longest { IsLedgerOf members.now (longest_after members.now traces.now) (option_copied longest) }
    requires clients { clients ≡ length members.now.homes }
    ensures { OnOk result (text.new.items ≡ text.old.items ++ run_text traces.now (empty_state (length members.now.homes)) (longest_after members.now traces.now)) }
{
    match longest {
        Some(trace) => push_run(alloc, text, members, clients, traces, trace),
        None => push_table(text, &[]),
    }
}
