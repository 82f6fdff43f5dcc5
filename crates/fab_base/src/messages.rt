//! The twelve kinds of message, and the certificates inside them.
//!
//! A signature field is the signer's signature of the message without that field. The greatest counts and lengths in the comments
//! are those of the wire format.
use crate::ids::{ClientId, Hash32, ReplicaId};
use crate::requests::{Batch, Outcome, Request};
use fab_rows::{Bytes, Rows};

/// The primary of a view proposes a batch for a slot (PBFT, pre-prepare).
#[derive(Debug, Drop, PartialEq, Eq)]
pub struct PrePrepare {
    /// The primary of the view.
    pub signer: ReplicaId,
    /// The view, from 0.
    pub view: u64,
    /// The slot, from 1: the number of the round that the batch is for.
    pub slot: u64,
    /// What is proposed.
    pub batch: Batch,
    /// The signer's signature.
    pub sig: Bytes,
}

/// A replica's vote for a batch, by its digest: a Prepare or a Commit (PBFT).
#[derive(Debug, Drop, PartialEq, Eq)]
pub struct Vote {
    /// Who votes.
    pub signer: ReplicaId,
    /// The view, from 0.
    pub view: u64,
    /// The slot, from 1.
    pub slot: u64,
    /// The digest of the batch.
    pub digest: Hash32,
    /// The signer's signature.
    pub sig: Bytes,
}

/// Votes in order of their signers, at most 10.
pub type Votes = Rows<Vote>;

/// A replica's statement about its ledger after a round (PBFT, checkpoint).
#[derive(Debug, Drop, PartialEq, Eq)]
pub struct StableVote {
    /// Who states it.
    pub signer: ReplicaId,
    /// The round, from 1.
    pub round: u64,
    /// The chain of the ledger after that round.
    pub digest: Hash32,
    /// The signer's signature.
    pub sig: Bytes,
}

/// Statements in order of their signers, at most 10.
pub type StableVotes = Rows<StableVote>;

/// A quorum's Prepares of one batch (PBFT, a prepared certificate).
#[derive(Debug, Drop, PartialEq, Eq)]
pub struct PreparedCert {
    /// The view of the votes.
    pub view: u64,
    /// The slot of the votes.
    pub slot: u64,
    /// The batch whose digest the votes bear.
    pub batch: Batch,
    /// The Prepares.
    pub votes: Votes,
}

/// Certificates in order of their slots, at most 16.
pub type PreparedCerts = Rows<PreparedCert>;

/// A quorum's Commits of one batch of a cluster (GeoBFT, a commit certificate). The round is the votes' slot.
#[derive(Debug, Drop, PartialEq, Eq)]
pub struct CommitCert {
    /// The cluster that committed the batch.
    pub cluster: u8,
    /// The batch whose digest the votes bear.
    pub batch: Batch,
    /// The Commits.
    pub votes: Votes,
}

/// A replica asks for a view, and reports what it prepared (PBFT, view-change).
#[derive(Debug, Drop, PartialEq, Eq)]
pub struct ViewChange {
    /// Who asks.
    pub signer: ReplicaId,
    /// The view that is asked for, from 1.
    pub view: u64,
    /// The signer's low mark: the last round that it knows to be stable, or 0.
    pub low: u64,
    /// The proof of that mark: empty at 0.
    pub proof: StableVotes,
    /// The signer's prepared certificates of slots above the mark.
    pub prepared: PreparedCerts,
    /// The signer's signature.
    pub sig: Bytes,
}

/// View changes in order of their signers, at most 10.
pub type ViewChanges = Rows<ViewChange>;

/// The primary of a new view shows the view changes that begin it (PBFT, new-view). Receivers compute the choice of batches.
#[derive(Debug, Drop, PartialEq, Eq)]
pub struct NewView {
    /// The primary of the view.
    pub signer: ReplicaId,
    /// The view, from 1.
    pub view: u64,
    /// A quorum's view changes for the view.
    pub changes: ViewChanges,
    /// The signer's signature.
    pub sig: Bytes,
}

/// A plea for another cluster's certificate: a Drvc inside the own cluster, an Rvc to the other one (GeoBFT, remote view change).
#[derive(Debug, Drop, PartialEq, Eq)]
pub struct Plea {
    /// Who pleads.
    pub signer: ReplicaId,
    /// The cluster whose certificate is missing.
    pub target: u8,
    /// The round of the missing certificate, from 1.
    pub round: u64,
    /// How many remote view changes of the target the signer has counted before.
    pub count: u32,
    /// The signer's signature.
    pub sig: Bytes,
}

/// What one request of a block came to.
#[derive(Debug, Drop, PartialEq, Eq)]
pub struct NoteLine {
    /// Who asked.
    pub client: ClientId,
    /// The request's stamp.
    pub stamp: u32,
    /// What it came to.
    pub outcome: Outcome,
}

/// The lines of a block, in the order of its requests, at most 8.
pub type NoteLines = Rows<NoteLine>;

/// A replica's reply to the clients of its cluster's block (PBFT, reply).
#[derive(Debug, Drop, PartialEq, Eq)]
pub struct Note {
    /// Who replies.
    pub signer: ReplicaId,
    /// The round of the block, from 1.
    pub round: u64,
    /// The digest of the block's batch.
    pub digest: Hash32,
    /// What the requests came to.
    pub lines: NoteLines,
    /// The signer's signature.
    pub sig: Bytes,
}

/// A replica asks another for a certificate that it is missing (ours).
#[derive(Clone, Copy, Debug, Drop, PartialEq, Eq)]
pub struct Ask {
    /// Who asks.
    pub asker: ReplicaId,
    /// The cluster of the certificate.
    pub cluster: u8,
    /// The round of the certificate, from 1.
    pub round: u64,
}

/// A message of the fabric.
#[derive(Debug, Drop, PartialEq, Eq)]
pub enum Message {
    /// From a client to the replicas of its home cluster.
    Request(Request),
    /// From a primary to its cluster.
    PrePrepare(PrePrepare),
    /// From a replica to its cluster.
    Prepare(Vote),
    /// From a replica to its cluster.
    Commit(Vote),
    /// From a replica to its cluster.
    Checkpoint(StableVote),
    /// From a replica to its cluster.
    ViewChange(ViewChange),
    /// From a primary to its cluster.
    NewView(NewView),
    /// From a replica to its cluster.
    Drvc(Plea),
    /// From a replica to one replica of the target, which passes it on to its cluster.
    Rvc(Plea),
    /// From a replica to the clients: it has no receiver among the replicas.
    ReplyNote(Note),
    /// From a primary to some replicas of every other cluster, which pass it on to theirs.
    Share(CommitCert),
    /// From a replica to another.
    Fetch(Ask),
}
