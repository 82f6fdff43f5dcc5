//! The second pass: whether a part keeps the rules of its kind, and whether its certificates and proofs are what they have to be.
ghost use Rattle.std.specs.Prelude.{◌++◌, All, IsTrue};
ghost use Rattle.std.specs.List.{flat_map};
ghost use Rattle.fab_base.specs.declared.messages.Message.{Message};
ghost use Rattle.fab_base.specs.Roster.{is_cluster};
ghost use Rattle.fab_rules.specs.declared.misfits.Misfit.{Misfit};
ghost use Rattle.fab_rules.specs.Format.{batch_fits};
ghost use Rattle.fab_rules.specs.Shape.{bear_digest, unless, prepared_misfits, certificate_misfits, misfits_at};
ghost use Rattle.bft_msg.specs.Passing.{Clears, NoneIs};
ghost use Rattle.bft_msg.specs.Ready.{IsReady};

use crate::certificates::{bear_digest, is_committed, is_prepared, is_proved};
use crate::check::Check;
use crate::numbers::is_slot;
use crate::rules::{is_batch_of, is_new_view, is_plea, is_proposal, is_view_change, is_vote};
use fab_base::{
    Batch, CommitCert, Members, Message, PreparedCert, Request, StableVote, ViewChange, Vote, Votes,
};
use fab_rules::Misfit;

/// A broken rule, unless the part keeps it.
fn unless(keeps: bool, part: u32) -> Result<(), Misfit>
    ensures { Clears NoneIs (unless keeps (Misfit.BadShape part)) result }
{
    if keeps {
        Ok(())
    } else {
        Err(Misfit::BadShape { part })
    }
}

/// What is wrong with a certificate in a part, of which it is known whether it is one but for the digest of its batch.
fn in_certificate(certifies: bool, part: u32, batch: &Batch, votes: &Votes) -> Result<(), Misfit>
    requires { IsTrue (batch_fits batch.now) }
    ensures { Clears NoneIs (unless certifies (Misfit.BadCert part) ++ unless (bear_digest batch.now votes.now) (Misfit.WrongDigest part)) result }
{
    if !certifies {
        Err(Misfit::BadCert { part })
    } else if !bear_digest(batch, votes) {
        Err(Misfit::WrongDigest { part })
    } else {
        Ok(())
    }
}

/// What is wrong with the prepared certificates in a part.
fn in_prepared(
    members: &Members,
    part: u32,
    cluster: u8,
    certificates: &[PreparedCert],
) -> Result<(), Misfit>
    requires cluster { IsTrue (is_cluster members.now cluster) }
    requires batches { All (λ k. IsTrue (batch_fits k.batch)) certificates.now }
    ensures { Clears NoneIs (flat_map (prepared_misfits members.now part cluster) certificates.now) result }
{
    for certificate in certificates {
        in_certificate(
            is_prepared(members, cluster, certificate),
            part,
            &certificate.batch,
            &certificate.votes,
        )?;
    }
    Ok(())
}

/// What is wrong with the proof and the prepared certificates of a view change.
fn in_reports(members: &Members, part: u32, change: &ViewChange) -> Result<(), Misfit>
    requires { IsReady members.now (Message.ViewChange change.now) }
    ensures { Clears NoneIs (certificate_misfits members.now part (Message.ViewChange change.now)) result }
{
    if is_proved(members, change) {
        let cluster = change.signer.cluster;
        in_prepared(members, part, cluster, change.prepared.as_slice())
    } else {
        Err(Misfit::BadCert { part })
    }
}

/// What is wrong with a view change.
fn in_view_change(members: &Members, part: u32, change: &ViewChange) -> Result<(), Misfit>
    requires { IsReady members.now (Message.ViewChange change.now) }
    ensures { Clears NoneIs (misfits_at members.now part (Message.ViewChange change.now)) result }
{
    if is_view_change(members, change) {
        in_reports(members, part, change)
    } else {
        Err(Misfit::BadShape { part })
    }
}

/// What is wrong with a Share.
fn in_share(members: &Members, share: &CommitCert) -> Result<(), Misfit>
    requires { IsReady members.now (Message.Share share.now) }
    ensures { Clears NoneIs (misfits_at members.now 0 (Message.Share share.now)) result }
{
    if is_batch_of(members, share.cluster, &share.batch) {
        in_certificate(is_committed(members, share), 0, &share.batch, &share.votes)
    } else {
        Err(Misfit::BadShape { part: 0 })
    }
}

/// The question whether a part in which no stranger has a part is well formed.
#[derive(Clone, Copy, Drop)]
pub(crate) struct Misfits<'a> {
    /// Who takes part.
    pub(crate) members: &'a Members,
}

impl<'a> Check for Misfits<'a> {
    ghost use Rattle.fab_rules.specs.Shape.{misfits_at};
    ghost use Rattle.bft_msg.specs.Passing.{NoneIs};
    ghost use Rattle.bft_msg.specs.Ready.{IsReady};

    type Fault = Misfit;

    ghost may = { λ s. IsReady s.members.now };

    ghost wrong = { λ s. misfits_at s.members.now };

    ghost free = { NoneIs };

    fn message(&self, message: &Message) -> Result<(), Misfit> {
        match message {
            Message::Request(_) => Ok(()),
            Message::PrePrepare(x) => unless(is_proposal(self.members, x), 0),
            Message::Prepare(x) => unless(is_vote(x), 0),
            Message::Commit(x) => unless(is_vote(x), 0),
            Message::Checkpoint(x) => unless(is_slot(x.round), 0),
            Message::ViewChange(x) => in_view_change(self.members, 0, x),
            Message::NewView(x) => unless(is_new_view(self.members, x), 0),
            Message::Drvc(x) => unless(is_plea(x), 0),
            Message::Rvc(x) => unless(is_plea(x), 0),
            Message::ReplyNote(x) => unless(is_slot(x.round), 0),
            Message::Share(x) => in_share(self.members, x),
            Message::Fetch(x) => unless(is_slot(x.round), 0),
        }
    }

    fn request(&self, _part: u32, _request: &Request) -> Result<(), Misfit> {
        Ok(())
    }

    fn prepare(&self, part: u32, vote: &Vote) -> Result<(), Misfit> {
        unless(is_vote(vote), part)
    }

    fn commit(&self, part: u32, vote: &Vote) -> Result<(), Misfit> {
        unless(is_vote(vote), part)
    }

    fn checkpoint(&self, part: u32, vote: &StableVote) -> Result<(), Misfit> {
        unless(is_slot(vote.round), part)
    }

    fn view_change(&self, part: u32, change: &ViewChange) -> Result<(), Misfit> {
        in_view_change(self.members, part, change)
    }
}
