//! Votes, checkpoints, and the lists of them.
ghost use Rattle.std.specs.Prelude.{◌≡◌, IsTrue, OnOk};
ghost use Rattle.std.specs.List.{flat_map, list_all};
ghost use Rattle.fab_rules.specs.Spelling.{counted, signed, vote_body, checkpoint_body};
ghost use Rattle.fab_rules.specs.Format.{vote_fits, votes_fit, proof_fits};
ghost use Rattle.msg_spell.specs.Pieces.{Gains};

use crate::fields::{
    comes_before, digest_fits, id_fits, put_replica, put_signature, put_u8, put_u64, signature_fits,
};
use crate::spelled::{Fits, Ordered, Spelled, list_fits, put_counted};
use crate::tags::CHECKPOINT;
use crate::writers::Writer;
use fab_base::{MOST_STATEMENTS, ReplicaId, StableVote, StableVotes, Vote, Votes};

impl Fits for Vote {
    ghost use Rattle.fab_rules.specs.Format.{vote_fits};

    ghost fits = { vote_fits };

    fn fits(&self) -> bool {
        let _view = self.view;
        let _slot = self.slot;
        id_fits(self.signer) && digest_fits(&self.digest) && signature_fits(&self.sig)
    }
}

impl Ordered for Vote {
    ghost use Rattle.fab_rules.specs.Format.{comes_before};

    type Rank = ReplicaId;

    ghost rank = { λ v. v.signer };

    ghost before = { comes_before };

    fn precedes(&self, next: &Vote) -> bool {
        comes_before(self.signer, next.signer)
    }
}

/// Whether there are at most so many votes as a list may have, each within the ranges and lengths, and their signers rise.
pub fn votes_fit(votes: &Votes) -> bool
    ensures { result ≡ votes_fit votes.now }
{
    list_fits(votes, MOST_STATEMENTS)
}

/// Writes what is signed of a vote, but for the format, under the tag of a Prepare or of a Commit.
pub fn put_vote_body<W: Writer>(out: &mut W, tag: u8, vote: &Vote) -> Result<(), W::Fault>
    ensures { OnOk result (Gains W.holds out.old out.new (vote_body tag vote.now)) }
{
    put_u8(out, tag)?;
    put_replica(out, vote.signer)?;
    put_u64(out, vote.view)?;
    put_u64(out, vote.slot)?;
    out.write(&vote.digest.bytes)?;
    Ok(())
}

/// Writes a vote under this tag.
fn put_vote<W: Writer>(out: &mut W, tag: u8, vote: &Vote) -> Result<(), W::Fault>
    requires { IsTrue (vote_fits vote.now) }
    ensures { OnOk result (Gains W.holds out.old out.new (signed (vote_body tag vote.now) vote.now.sig)) }
{
    put_vote_body(out, tag, vote)?;
    put_signature(out, &vote.sig)?;
    Ok(())
}

/// Writes the votes under this tag.
fn put_each_vote<W: Writer>(out: &mut W, tag: u8, votes: &[Vote]) -> Result<(), W::Fault>
    requires { IsTrue (list_all vote_fits votes.now) }
    ensures { OnOk result (Gains W.holds out.old out.new (flat_map (λ v. signed (vote_body tag v) v.sig) votes.now)) }
{
    for vote in votes {
        put_vote(out, tag, vote)?;
    }
    Ok(())
}

/// Writes the number of the votes and their spellings, under this tag.
pub fn put_votes<W: Writer>(out: &mut W, tag: u8, votes: &Votes) -> Result<(), W::Fault>
    requires { IsTrue (votes_fit votes.now) }
    ensures { OnOk result (Gains W.holds out.old out.new (counted (λ v. signed (vote_body tag v) v.sig) votes.now)) }
{
    put_u8(out, votes.len() as u8)?;
    put_each_vote(out, tag, votes.as_slice())
}

impl Fits for StableVote {
    ghost use Rattle.fab_rules.specs.Format.{stable_vote_fits};

    ghost fits = { stable_vote_fits };

    fn fits(&self) -> bool {
        let _round = self.round;
        id_fits(self.signer) && digest_fits(&self.digest) && signature_fits(&self.sig)
    }
}

impl Ordered for StableVote {
    ghost use Rattle.fab_rules.specs.Format.{comes_before};

    type Rank = ReplicaId;

    ghost rank = { λ v. v.signer };

    ghost before = { comes_before };

    fn precedes(&self, next: &StableVote) -> bool {
        comes_before(self.signer, next.signer)
    }
}

/// Whether there are at most so many checkpoints as a list may have, each within the ranges and lengths, and their signers rise.
pub fn proof_fits(proof: &StableVotes) -> bool
    ensures { result ≡ proof_fits proof.now }
{
    list_fits(proof, MOST_STATEMENTS)
}

/// Writes what is signed of a checkpoint, but for the format.
pub fn put_checkpoint_body<W: Writer>(out: &mut W, vote: &StableVote) -> Result<(), W::Fault>
    ensures { OnOk result (Gains W.holds out.old out.new (checkpoint_body vote.now)) }
{
    put_u8(out, CHECKPOINT)?;
    put_replica(out, vote.signer)?;
    put_u64(out, vote.round)?;
    out.write(&vote.digest.bytes)?;
    Ok(())
}

impl Spelled for StableVote {
    ghost use Rattle.fab_rules.specs.Spelling.{signed, checkpoint_body};

    ghost spelling = { λ v. signed (checkpoint_body v) v.sig };

    fn put<W: Writer>(&self, out: &mut W) -> Result<(), W::Fault> {
        put_checkpoint_body(out, self)?;
        put_signature(out, &self.sig)?;
        Ok(())
    }
}

/// Writes the number of the checkpoints and their spellings.
pub fn put_proof<W: Writer>(out: &mut W, proof: &StableVotes) -> Result<(), W::Fault>
    requires { IsTrue (proof_fits proof.now) }
    ensures { OnOk result (Gains W.holds out.old out.new (counted (λ v. signed (checkpoint_body v) v.sig) proof.now)) }
{
    put_counted(out, proof)
}
