//! The Checkpoints that the members of a cluster said, and the calls on them.
ghost use Rattle.std.specs.Prelude.{◌≡◌, ◌≢◌, ◌<◌, ◌↔◌, Some, None, Ok, filter, IfOk, OnOk, OnErr};
ghost use Rattle.std.specs.Option.{option_copied, option_to_list};
ghost use Rattle.fab_base.specs.Digests.{same_digest};
ghost use Rattle.fab_base.specs.declared.ids.Hash32.{Hash32};
ghost use Rattle.checkpoint_core.specs.Checkpoints.{AreCheckpoints, first_in, vote_of, vote_answer, after_vote, number_for, is_agreed, stable, HasQuorum, first_for, proof_of, pruned};

use crate::NoMemory;
use fab_base::{Duplicate, Hash32, Rows, StableVote, StableVotes, Take, quorum};
use std::marker::Model;

/// The Checkpoints that the members of one cluster said, of each member the first one for a round (PBFT, section 4.3). A contract sees
/// a `Checkpoints`: the low mark, the number of members, and the Checkpoints that count, in the order in which they came.
#[derive(Debug, Drop)]
pub struct StableBook {
    pub(crate) low: u64,
    pub(crate) members: u8,
    pub(crate) votes: Vec<StableVote>,
}

impl Model for StableBook {
    ghost use Rattle.checkpoint_core.specs.Checkpoints.{Checkpoints, AreCheckpoints};

    ghost Value = { Checkpoints };

    ghost view = { λ b. record { low = b.low; members = b.members; votes = b.votes.items } };

    ghost invariant = { λ b. AreCheckpoints (record { low = b.low; members = b.members; votes = b.votes.items }) };
}

impl StableBook {
    /// The low mark, at first 0: the rounds up to it are over, and nothing is kept of them.
    pub fn low(&self) -> u64
        ensures is { result ≡ self.now.low }
        ensures whole { AreCheckpoints self.now }
    {
        self.low
    }

    /// Hears a Checkpoint of a member: of each member the first one for a round above the low mark counts. The answer is the first of
    /// these that holds:
    ///
    /// - `Old`, with the low mark: the round is at or below it.
    /// - `Twice`: one of this signer for the round counts, with the same digest.
    /// - `Conflict`, with the digest of the one that counts: one of this signer for the round counts, with another digest.
    /// - `Taken`: it counts from now on.
    ///
    /// Other answers than `Taken` change nothing and take no memory, so memory can't be refused there. Where it is refused all stays as
    /// it was. A signer is told by its index alone: neither its cluster nor the signature is looked at.
    pub fn vote(&mut self, vote: StableVote) -> Result<Take, NoMemory>
        requires { vote.signer.index < self.old.members }
        ensures answer { IfOk result (λ take. take ≡ vote_answer self.old vote) }
        ensures state { OnOk result (self.new ≡ after_vote self.old vote) }
        ensures refused { OnErr result (self.new ≡ self.old) }
        ensures other { vote_answer self.old vote ≢ Take.Taken → (result ≡ Ok (vote_answer self.old vote)) × (self.new ≡ self.old) }
    {
        if vote.round <= self.low {
            return Ok(Take::Old { low: self.low });
        }
        match self.vote_of(vote.signer.index, vote.round) {
            Some(first) if first.digest == vote.digest => Ok(Take::Twice),
            Some(first) => Ok(Take::Conflict { kept: first.digest }),
            None => {
                self.votes.push(vote)?;
                Ok(Take::Taken)
            }
        }
    }

    /// The digest with which the round is stable: the one that a quorum of the members says (PBFT). No two digests have one. `None`
    /// exactly where no digest has, so too for a round up to the low mark. Takes no memory.
    pub fn stable(&self, round: u64) -> Option<Hash32>
        ensures is { result ≡ stable self.now round }
        ensures quorum { (digest : Hash32) → (result ≡ Some digest) ↔ HasQuorum self.now round digest }
    {
        Some(self.agreed(round)?.digest)
    }

    /// The proof that the round is stable (PBFT): copies of the Checkpoints that say its digest, by rising index of their signers, the
    /// first so many as make a quorum. `None` exactly where the round isn't stable, and then it takes no memory. It fails only where
    /// memory is refused.
    pub fn proof(&self, round: u64) -> Result<Option<StableVotes>, NoMemory>
        ensures is { IfOk result (λ votes. votes ≡ proof_of self.now round) }
        ensures none { stable self.now round ≡ None → result ≡ Ok None }
    {
        match self.stable(round) {
            Some(digest) => Ok(Some(self.first_for(round, digest)?)),
            None => Ok(None),
        }
    }

    /// Moves the low mark up to the round, and lets what counts for rounds up to the mark go. The mark never moves down. Takes no memory.
    pub fn prune(&mut self, round: u64)
        ensures { self.new ≡ pruned self.old round }
    {
        let low = self.low.max(round);
        self.low = low;
        self.votes.retain(|v| low < v.round);
    }

    /// The Checkpoint of a member for a round that counts.
    fn vote_of(&self, sender: u8, round: u64) -> Option<&StableVote>
        ensures { option_copied result ≡ vote_of self.now.votes sender round }
    {
        self.votes
            .iter()
            .find(|v| v.signer.index == sender && v.round == round)
    }

    /// The same, where it has this digest.
    fn said_by(&self, sender: u8, round: u64, digest: Hash32) -> Option<&StableVote>
        ensures { option_to_list (option_copied result) ≡ filter (λ v. same_digest v.digest digest) (option_to_list (vote_of self.now.votes sender round)) }
    {
        self.vote_of(sender, round).filter(|v| v.digest == digest)
    }

    /// How many say this of the round.
    fn number_for(&self, round: u64, digest: Hash32) -> usize
        ensures { result ≡ number_for self.now.votes round digest }
    {
        self.votes
            .iter()
            .filter(|v| v.round == round && v.digest == digest)
            .count()
    }

    /// The first Checkpoint for the round that a quorum says. Those of other rounds are passed over, and nothing is counted for them.
    fn agreed(&self, round: u64) -> Option<&StableVote>
        ensures is { option_copied result ≡ first_in (filter (is_agreed self.now round) self.now.votes) }
        ensures whole { AreCheckpoints self.now }
    {
        let need = quorum(self.members) as usize;
        self.votes.iter().find(|v| v.round == round && need <= self.number_for(round, v.digest))
    }

    /// Copies of those that say this of the round, by rising index of their signers, the first so many as make a quorum.
    fn first_for(&self, round: u64, digest: Hash32) -> Result<StableVotes, NoMemory>
        ensures { IfOk result (λ votes. votes ≡ first_for self.now round digest) }
    {
        let need = quorum(self.members) as usize;
        let mut first = Rows::new(*self.votes.allocator());
        for sender in 0..self.members {
            if first.len() < need {
                if let Some(vote) = self.said_by(sender, round, digest) {
                    first.push(vote.duplicate()?)?;
                }
            }
        }
        Ok(first)
    }
}
