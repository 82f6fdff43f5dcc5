//! The lines of a ledger's blocks, whose requests are applied anew to an empty table.
ghost use Rattle.std.specs.Prelude.{◌≡◌, ◌<◌, ◌++◌, Some, flat_map, length, All, IfOk, OnOk, IsTrue, slice_get};
ghost use Rattle.fab_rules.specs.Format.{batch_fits};
ghost use Rattle.fab_rules.specs.Ledger.{run_from, state_after_blocks};
ghost use Rattle.round_exec.specs.Book.{are_clients};
ghost use Rattle.seq_table.specs.Holding.{state_of};
ghost use Rattle.ledger_report.specs.Walking.{block_line, lines_told, IsWhole};

use crate::notes::{Told, told_by};
use crate::text::{push_bytes, push_number, push_replies};
use fab_base::{NoMemory, Outcomes};
use fab_rules::Block;
use round_exec::Rounds;
use seq_table::Table;

/// The block at a place of a ledger, from 0. Each round has a block of each cluster, in their order.
fn block_at(rounds: &Rounds, clusters: u8, place: usize) -> &Block
    requires whole { IsWhole rounds.now }
    requires clusters { clusters ≡ rounds.now.clusters }
    requires within { place < length rounds.now.rounds.blocks }
    requires next { place < usize.MAX }
    ensures is { slice_get rounds.now.rounds.blocks place ≡ Some result.now }
    ensures fits { IsTrue (batch_fits result.now.batch) }
    ensures clients { IsTrue (are_clients rounds.now.clients result.now.batch) }
{
    let round = place as u64 / clusters as u64 + 1;
    let cluster = (place % clusters as usize) as u8 + 1;
    rounds.block(round, cluster).unwrap()
}

/// Adds the line of a block, of which so many notes tell.
fn push_block_line(text: &mut Vec<u8>, block: &Block, notes: u64) -> Result<(), NoMemory>
    ensures { OnOk result (text.new.items ≡ text.old.items ++ block_line block.now notes) }
{
    push_bytes(text, b"block ")?;
    push_number(text, block.round)?;
    push_bytes(text, b" ")?;
    push_number(text, block.cluster as u64)?;
    push_bytes(text, b" ")?;
    push_number(text, block.batch.len() as u64)?;
    push_bytes(text, b" ")?;
    push_number(text, notes)?;
    push_bytes(text, b"\n")
}

/// Adds the lines of a block: its own, and one for each request.
fn push_block(
    text: &mut Vec<u8>,
    told: &[Told],
    block: &Block,
    outcomes: &Outcomes,
) -> Result<(), NoMemory>
    requires { IsTrue (batch_fits block.now.batch) }
    ensures { OnOk result (text.new.items ≡ text.old.items ++ lines_told told.now (record { block = block.now; outcomes = outcomes.now })) }
{
    push_block_line(text, block, told_by(told, block, outcomes))?;
    push_replies(text, block.batch.as_slice(), outcomes.as_slice())
}

/// Adds the lines of all blocks of a ledger, in order. The table, which has this many clients, is left as the blocks' requests leave it.
pub(crate) fn push_blocks(
    text: &mut Vec<u8>,
    told: &[Told],
    rounds: &Rounds,
    clusters: u8,
    table: &mut Table,
) -> Result<(), NoMemory>
    requires whole { IsWhole rounds.now }
    requires clusters { clusters ≡ rounds.now.clusters }
    requires clients { length table.old.stamps ≡ rounds.now.clients }
    ensures lines { OnOk result (text.new.items ≡ text.old.items ++ flat_map (lines_told told.now) (run_from (state_of table.old) rounds.now.rounds.blocks)) }
    ensures state { OnOk result (state_of table.new ≡ state_after_blocks (state_of table.old) rounds.now.rounds.blocks) }
{
    for place in 0..rounds.ledger().len() {
        let block = block_at(rounds, clusters, place);
        let outcomes = table.run(&block.batch)?;
        push_block(text, told, block, &outcomes)?;
    }
    Ok(())
}
