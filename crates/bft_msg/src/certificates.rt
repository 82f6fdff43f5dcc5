//! Certificates and proofs: equal statements of a quorum.
ghost use Rattle.std.specs.Prelude.{◌≡◌, ◌&&◌, nat_eq, IsTrue, length};
ghost use Rattle.std.specs.List.{list_all};
ghost use Rattle.fab_base.specs.Digests.{same_digest};
ghost use Rattle.fab_base.specs.Quorums.{quorum_size};
ghost use Rattle.fab_base.specs.Roster.{is_cluster, size_of};
ghost use Rattle.fab_rules.specs.Format.{batch_fits};
ghost use Rattle.fab_rules.specs.Shape.{agrees_with, agree, agree_on_low, bear_digest, is_prepared, is_committed, is_proved};

use fab_base::{
    Batch, CommitCert, Hash32, Members, PreparedCert, StableVote, ViewChange, Vote, Votes, quorum,
};
use msg_spell::batch_digest;

/// Whether so many statements are exactly a quorum of the cluster's members.
fn is_quorum_of(members: &Members, cluster: u8, count: usize) -> bool
    requires { IsTrue (is_cluster members.now cluster) }
    ensures { result ≡ nat_eq count (quorum_size (size_of members.now cluster)) }
{
    count == quorum(members.size(cluster)) as usize
}

/// Whether votes are of the cluster and equal to this one.
fn agree_with(cluster: u8, first: &Vote, votes: &[Vote]) -> bool
    ensures { result ≡ list_all (agrees_with cluster first.now) votes.now }
{
    votes.iter().all(|vote| {
        vote.signer.cluster == cluster
            && vote.view == first.view
            && vote.slot == first.slot
            && vote.digest == first.digest
    })
}

/// Whether votes are of the cluster and all equal.
fn agree(cluster: u8, votes: &[Vote]) -> bool
    ensures { result ≡ agree cluster votes.now }
{
    match votes.first() {
        None => true,
        Some(first) => agree_with(cluster, first, votes),
    }
}

/// Whether votes are of this view and slot.
fn are_at(view: u64, slot: u64, votes: &[Vote]) -> bool
    ensures { result ≡ list_all (λ v. nat_eq v.view view && nat_eq v.slot slot) votes.now }
{
    votes
        .iter()
        .all(|vote| vote.view == view && vote.slot == slot)
}

/// Whether votes bear this digest.
fn bear(digest: Hash32, votes: &[Vote]) -> bool
    ensures { result ≡ list_all (λ v. same_digest v.digest digest) votes.now }
{
    votes.iter().all(|vote| vote.digest == digest)
}

/// Whether votes bear the digest of the batch, which is taken once.
pub(crate) fn bear_digest(batch: &Batch, votes: &Votes) -> bool
    requires { IsTrue (batch_fits batch.now) }
    ensures { result ≡ bear_digest batch.now votes.now }
{
    bear(batch_digest(batch), votes.as_slice())
}

/// Whether it is a prepared certificate of the cluster, but for the digest of its batch: exactly a quorum's equal Prepares of its
/// view and slot (PBFT, section 4.2).
pub(crate) fn is_prepared(members: &Members, cluster: u8, certificate: &PreparedCert) -> bool
    requires { IsTrue (is_cluster members.now cluster) }
    ensures { result ≡ is_prepared members.now cluster certificate.now }
{
    is_quorum_of(members, cluster, certificate.votes.len())
        && agree(cluster, certificate.votes.as_slice())
        && are_at(
            certificate.view,
            certificate.slot,
            certificate.votes.as_slice(),
        )
}

/// Whether it is a commit certificate, but for the digest of its batch: exactly a quorum's equal Commits (GeoBFT).
pub(crate) fn is_committed(members: &Members, certificate: &CommitCert) -> bool
    requires { IsTrue (is_cluster members.now certificate.now.cluster) }
    ensures { result ≡ is_committed members.now certificate.now }
{
    is_quorum_of(members, certificate.cluster, certificate.votes.len())
        && agree(certificate.cluster, certificate.votes.as_slice())
}

/// Whether Checkpoints are of the cluster and of the round, and bear this digest.
fn are_of_low(cluster: u8, low: u64, digest: Hash32, votes: &[StableVote]) -> bool
    ensures { result ≡ list_all (λ v. nat_eq v.signer.cluster cluster && nat_eq v.round low && same_digest v.digest digest) votes.now }
{
    votes.iter().all(|vote| {
        vote.signer.cluster == cluster && vote.round == low && vote.digest == digest
    })
}

/// Whether Checkpoints are of the cluster and of the round, and bear one digest.
fn agree_on_low(cluster: u8, low: u64, votes: &[StableVote]) -> bool
    ensures { result ≡ agree_on_low cluster low votes.now }
{
    match votes.first() {
        None => true,
        Some(first) => are_of_low(cluster, low, first.digest, votes),
    }
}

/// Whether the low mark of a view change is 0, or exactly a quorum's equal Checkpoints prove it (PBFT, section 4.3).
pub(crate) fn is_proved(members: &Members, change: &ViewChange) -> bool
    requires { IsTrue (is_cluster members.now change.now.signer.cluster) }
    ensures { result ≡ is_proved members.now change.now }
{
    change.low == 0
        || is_quorum_of(members, change.signer.cluster, change.proof.len())
            && agree_on_low(change.signer.cluster, change.low, change.proof.as_slice())
}
