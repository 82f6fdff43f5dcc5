//! The blocks of a round, applied one after another in memory that was taken before.
ghost use Rattle.std.specs.Prelude.{◌≡◌, ◌++◌, ◌+◌, ◌≤◌, length, vec_capacity, IfOk, OnOk, IsTrue, All};
ghost use Rattle.std.specs.Map.{keys_of};
ghost use Rattle.fab_rules.specs.Format.{batch_fits};
ghost use Rattle.fab_rules.specs.Ledger.{linked, chain_from, state_after_blocks};
ghost use Rattle.seq_table.specs.Holding.{state_of};
ghost use Rattle.round_exec.specs.Done.{outcomes_in, AreSound, AreHeld, rooms_for};

use crate::NoMemory;
use fab_base::{Hash32, Outcomes};
use fab_rules::Block;
use msg_spell::batch_digest;
use seq_table::{Room, Table};
use sha2::{Digest, Sha256};
use std::alloc::Global;
use std::collections::VecDeque;

/// The chain after one block more.
#[tactic(auto, unfolding(fab_rules::specs::Ledger::linked))]
fn linked(chain: &Hash32, block: &Block) -> Hash32
    requires { IsTrue (batch_fits block.now.batch) }
    ensures { result ≡ linked chain.now block.now }
{
    let digest = batch_digest(&block.batch);
    let mut hasher = Sha256::new();
    hasher.update(chain.bytes);
    hasher.update(block.round.to_be_bytes());
    hasher.update([block.cluster]);
    hasher.update(digest.bytes);
    Hash32 {
        bytes: hasher.finalize(),
    }
}

/// The chain after some blocks more.
pub(crate) fn chain_after(mut chain: Hash32, blocks: &[Block]) -> Hash32
    requires { All (λ b. IsTrue (batch_fits b.batch)) blocks.now }
    ensures { result ≡ chain_from chain blocks.now }
{
    for block in blocks {
        chain = linked(&chain, block);
    }
    chain
}

/// All memory that the blocks' requests need: after this they can be applied, and can't fail. Where memory is refused, the state of the
/// table is as it was, and so it is after this.
pub(crate) fn reserve_all(
    alloc: Global,
    table: &mut Table,
    blocks: &[Block],
) -> Result<VecDeque<Room>, NoMemory>
    ensures rooms { IfOk result (λ rooms. rooms.items ≡ rooms_for blocks.now) }
    ensures held { OnOk result (AreHeld (keys_of table.new.held) blocks.now) }
    ensures state { state_of table.new ≡ state_of table.old }
{
    let mut rooms = VecDeque::with_capacity(alloc, blocks.len())?;
    for block in blocks {
        rooms.push_back(table.reserve(&block.batch)?)?;
    }
    Ok(rooms)
}

/// Applies the blocks' requests, and adds what each block came to. It takes no memory.
pub(crate) fn apply_all(
    table: &mut Table,
    blocks: &[Block],
    mut rooms: VecDeque<Room>,
    outcomes: &mut Vec<Outcomes>,
)
    requires sound { AreSound (length table.old.stamps) blocks.now }
    requires rooms { rooms.items ≡ rooms_for blocks.now }
    requires held { AreHeld (keys_of table.old.held) blocks.now }
    requires space { length outcomes.old.items + length blocks.now ≤ vec_capacity outcomes.old }
    ensures outcomes { outcomes.new.items ≡ outcomes.old.items ++ outcomes_in (state_of table.old) blocks.now }
    ensures state { state_of table.new ≡ state_after_blocks (state_of table.old) blocks.now }
    ensures clients { length table.new.stamps ≡ length table.old.stamps }
{
    for block in blocks {
        let room = rooms.pop_front().unwrap();
        let came = table.apply_batch(&block.batch, room);
        outcomes.push(came).unwrap();
    }
}
