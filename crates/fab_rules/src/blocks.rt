//! What a ledger is made of.
use fab_base::{Batch, Rows};

/// A batch that took its place in the ledger (GeoBFT). A round has one block of each cluster, in the order of the clusters.
#[derive(Debug, Drop, PartialEq, Eq)]
pub struct Block {
    /// The round, from 1.
    pub round: u64,
    /// The cluster whose replicas ordered the batch.
    pub cluster: u8,
    /// The batch.
    pub batch: Batch,
}

/// The blocks of a ledger, or of a part of one, the oldest first.
pub type Blocks = Rows<Block>;
