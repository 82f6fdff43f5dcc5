//! What was executed: the ledger, and beside it what its blocks came to.
ghost use Rattle.std.specs.Prelude.{◌≡◌, ◌+◌, ◌<◌, [], length, IfSome, IfOk, OnOk, OnErr, IsTrue};
ghost use Rattle.std.specs.Option.{option_copied, option_map};
ghost use Rattle.fab_rules.specs.Format.{batch_fits};
ghost use Rattle.fab_rules.specs.Ledger.{chain_of};
ghost use Rattle.fab_machine.specs.Rounds.{ran_block, outcomes_at, chain_at};
ghost use Rattle.round_exec.specs.Book.{are_clients};
ghost use Rattle.round_exec.specs.Done.{rounds_of, place_at, with_blocks, AreSound};

use crate::NoMemory;
use crate::applying::{apply_all, chain_after, reserve_all};
use fab_base::{Hash32, Outcomes};
use fab_rules::{Block, Blocks};
use seq_table::{Table, table};
use std::alloc::Global;
use std::marker::Model;

/// The executed rounds. A contract sees the ledger and of how many rounds it is. Beside it are kept the outcomes of each block, the chain
/// before the first round and after each, and the table.
#[derive(Drop)]
pub(crate) struct Executed {
    clusters: u8,
    clients: u8,
    blocks: Blocks,
    outcomes: Vec<Outcomes>,
    chains: Vec<Hash32>,
    table: Table,
}

impl Model for Executed {
    ghost use Rattle.std.specs.Prelude.{◌-◌, length};
    ghost use Rattle.round_exec.specs.Done.{Done, IsStored};

    ghost Value = { Done };

    ghost view = { λ d. record { clusters = d.clusters; clients = d.clients; executed = length d.chains.items - 1; blocks = d.blocks } };

    ghost invariant = { λ d. IsStored d.clusters d.clients d.blocks d.outcomes.items d.chains.items d.table };
}

impl Executed {
    /// No round is executed.
    #[tactic(auto, unfolding(fab_rules::specs::Ledger::chain_start))]
    pub(crate) fn new(alloc: Global, clusters: u8, clients: u8) -> Result<Executed, NoMemory>
        ensures { IfOk result (λ made. made ≡ record { clusters = clusters; clients = clients; executed = 0; blocks = [] }) }
    {
        let table = table(alloc, clients)?;
        let mut chains = Vec::with_capacity(alloc, 1)?;
        chains.push(Hash32 { bytes: [0; 32] })?;
        Ok(Executed {
            clusters,
            clients,
            blocks: Blocks::new(alloc),
            outcomes: Vec::new(alloc),
            chains,
            table,
        })
    }

    /// The number of the next round.
    pub(crate) fn next(&self) -> u64
        ensures { result ≡ self.now.executed + 1 }
    {
        self.chains.len() as u64
    }

    /// Where its memory comes from.
    pub(crate) fn alloc(&self) -> Global {
        *self.chains.allocator()
    }

    /// The number of clusters.
    pub(crate) fn clusters(&self) -> u8
        ensures { result ≡ self.now.clusters }
    {
        self.clusters
    }

    /// The ledger.
    pub(crate) fn ledger(&self) -> &Blocks
        ensures { result.now ≡ self.now.blocks }
    {
        &self.blocks
    }

    /// The chain of the ledger.
    pub(crate) fn chain(&self) -> Hash32
        ensures { result ≡ chain_of self.now.blocks }
    {
        self.chains[self.chains.len() - 1]
    }

    /// The chain after this many rounds, `None` exactly where fewer were executed.
    pub(crate) fn chain_at(&self, round: u64) -> Option<Hash32>
        ensures { result ≡ chain_at self.now.clusters (rounds_of self.now) round }
    {
        if round < self.next() {
            Some(self.chains[round as usize])
        } else {
            None
        }
    }

    /// The block of a round and cluster, `None` exactly where there is none.
    pub(crate) fn block(&self, round: u64, cluster: u8) -> Option<&Block>
        ensures is { option_copied result ≡ option_map (λ ran. ran.block) (ran_block self.now.clusters self.now.clients (rounds_of self.now) round cluster) }
        ensures sound { IfSome result (λ block. IsTrue (batch_fits block.now.batch) × IsTrue (are_clients self.now.clients block.now.batch)) }
    {
        self.blocks.get(self.place_of(round, cluster)?)
    }

    /// What its requests came to, `None` exactly where there is no such block.
    pub(crate) fn outcomes(&self, round: u64, cluster: u8) -> Option<&Outcomes>
        ensures { option_copied result ≡ outcomes_at self.now.clusters self.now.clients (rounds_of self.now) round cluster }
    {
        self.outcomes.get(self.place_of(round, cluster)?)
    }

    /// The place of a block in the ledger, `None` exactly where there is none.
    fn place_of(&self, round: u64, cluster: u8) -> Option<usize>
        ensures is { result ≡ place_at self.now round cluster }
        ensures within { IfSome result (λ place. place < length self.now.blocks) }
    {
        let blocks = self.blocks.len();
        let next = self.next();
        if round == 0 || round >= next || cluster == 0 || cluster > self.clusters {
            return None;
        }
        let before = (round - 1) as usize * usize::from(self.clusters);
        let place = before + usize::from(cluster - 1);
        // For the proof: the clause `within`.
        prove!(place < blocks);
        Some(place)
    }

    /// Executes a round: its blocks, one of each cluster. Where memory is refused, nothing changes that a contract sees.
    pub(crate) fn run(&mut self, mut more: Blocks) -> Result<(), NoMemory>
        requires whole { length more ≡ self.old.clusters }
        requires sound { AreSound self.old.clients more }
        ensures ok { OnOk result (self.new ≡ with_blocks self.old more) }
        ensures err { OnErr result (self.new ≡ self.old) }
    {
        let before = self.blocks.len();
        let chain = chain_after(self.chain(), more.as_slice());
        self.outcomes.reserve(more.len())?;
        self.chains.reserve(1)?;
        let alloc = *self.chains.allocator();
        let rooms = reserve_all(alloc, &mut self.table, more.as_slice())?;
        self.blocks.append(&mut more)?;
        let round = &self.blocks.as_slice()[before..];
        apply_all(&mut self.table, round, rooms, &mut self.outcomes);
        self.chains.push(chain).unwrap();
        Ok(())
    }
}
