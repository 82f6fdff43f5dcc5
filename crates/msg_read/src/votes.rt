//! Votes, Checkpoints and shares.
ghost use Rattle.std.specs.Prelude.{◌≡◌, None, Option};
ghost use Rattle.msg_read.specs.Steps.{Gives};
ghost use Rattle.msg_read.specs.Reading.{vote_fields, vote, votes, checkpoint_fields, checkpoint, proof, share_fields};

use crate::cursor::Cursor;
use crate::faults::DecodeFault;
use crate::listed::Listed;
use fab_base::{CommitCert, MOST_STATEMENTS, ReplicaId, StableVote, StableVotes, Vote, Votes};

impl Cursor<'_> {
    /// A vote behind its tag, in a list behind the signer `last`, if there is one.
    #[tactic(auto, unfolding(crate::specs::Reading::vote_fields))]
    pub(crate) fn vote_fields(&mut self, last: Option<ReplicaId>) -> Result<Vote, DecodeFault>
        ensures { Gives (λ v. (v, self.new)) result (vote_fields last self.old) }
    {
        let signer = self.signer(last)?;
        let view = self.u64()?;
        let slot = self.u64()?;
        let digest = self.digest()?;
        let sig = self.signature()?;
        Ok(Vote {
            signer,
            view,
            slot,
            digest,
            sig,
        })
    }

    /// The votes of a certificate, which have this tag.
    #[tactic(auto, unfolding(crate::specs::Reading::votes))]
    pub(crate) fn votes(&mut self, tag: u8) -> Result<Votes, DecodeFault>
        ensures { Gives (λ v. (v, self.new)) result (votes tag self.old) }
    {
        let count = self.count(MOST_STATEMENTS)?;
        self.items(tag, count, None)
    }

    /// A Checkpoint behind its tag, in a list behind the signer `last`, if there is one.
    #[tactic(auto, unfolding(crate::specs::Reading::checkpoint_fields))]
    pub(crate) fn checkpoint_fields(
        &mut self,
        last: Option<ReplicaId>,
    ) -> Result<StableVote, DecodeFault>
        ensures { Gives (λ v. (v, self.new)) result (checkpoint_fields last self.old) }
    {
        let signer = self.signer(last)?;
        let round = self.u64()?;
        let digest = self.digest()?;
        let sig = self.signature()?;
        Ok(StableVote {
            signer,
            round,
            digest,
            sig,
        })
    }

    /// The Checkpoints of a proof.
    #[tactic(auto, unfolding(crate::specs::Reading::proof))]
    pub(crate) fn proof(&mut self) -> Result<StableVotes, DecodeFault>
        ensures { Gives (λ v. (v, self.new)) result (proof self.old) }
    {
        let count = self.count(MOST_STATEMENTS)?;
        self.items(5, count, None)
    }

    /// A share behind its tag.
    #[tactic(auto, unfolding(crate::specs::Reading::share_fields))]
    pub(crate) fn share_fields(&mut self) -> Result<CommitCert, DecodeFault>
        ensures { Gives (λ k. (k, self.new)) result (share_fields self.old) }
    {
        let cluster = self.u8()?;
        let batch = self.batch()?;
        let votes = self.votes(4)?;
        Ok(CommitCert {
            cluster,
            batch,
            votes,
        })
    }
}

impl Listed for Vote {
    ghost use Rattle.std.specs.Prelude.{Some};
    ghost use Rattle.msg_read.specs.Reading.{vote};

    type Last = Option<ReplicaId>;

    ghost reads = { vote };

    ghost keeps = { λ v. Some v.signer };

    #[tactic(auto, unfolding(crate::specs::Reading::vote))]
    fn read(
        cursor: &mut Cursor<'_>,
        tag: u8,
        last: Option<ReplicaId>,
    ) -> Result<Vote, DecodeFault> {
        cursor.tagged(tag)?;
        cursor.vote_fields(last)
    }

    fn kept(&self) -> Option<ReplicaId> {
        Some(self.signer)
    }
}

impl Listed for StableVote {
    ghost use Rattle.std.specs.Prelude.{Some};
    ghost use Rattle.msg_read.specs.Reading.{checkpoint};

    type Last = Option<ReplicaId>;

    ghost reads = { λ tag. checkpoint };

    ghost keeps = { λ v. Some v.signer };

    #[tactic(auto, unfolding(crate::specs::Reading::checkpoint))]
    fn read(
        cursor: &mut Cursor<'_>,
        _tag: u8,
        last: Option<ReplicaId>,
    ) -> Result<StableVote, DecodeFault> {
        cursor.tagged(5)?;
        cursor.checkpoint_fields(last)
    }

    fn kept(&self) -> Option<ReplicaId> {
        Some(self.signer)
    }
}
