//! What a part's own fields have to keep.
ghost use Rattle.std.specs.Prelude.{◌≡◌, All, IsTrue, nat_eq, ◌&&◌};
ghost use Rattle.std.specs.List.{list_all};
ghost use Rattle.fab_base.specs.Roster.{is_cluster, is_client, is_replica};
ghost use Rattle.fab_rules.specs.Shape.{is_batch_of, is_vote, is_proposal, is_report_of, is_view_change, is_new_view, is_plea};

use crate::numbers::{is_open, is_primary, is_slot, is_view};
use fab_base::{
    Batch, GREATEST_COUNT, GREATEST_NUMBER, Members, NewView, Plea, PrePrepare, PreparedCert,
    ViewChange, Vote, quorum,
};

/// Whether the clients of a batch have their home in the cluster.
pub(crate) fn is_batch_of(members: &Members, cluster: u8, batch: &Batch) -> bool
    requires { All (λ x. IsTrue (is_client members.now x.client)) batch.now }
    ensures { result ≡ is_batch_of members.now cluster batch.now }
{
    let requests = batch.as_slice();
    requests
        .iter()
        .all(|request| members.home(request.client) == cluster)
}

/// The rule of Prepares and Commits.
pub(crate) fn is_vote(vote: &Vote) -> bool
    ensures { result ≡ is_vote vote.now }
{
    is_view(vote.view) && is_slot(vote.slot)
}

/// The rule of PrePrepares.
pub(crate) fn is_proposal(members: &Members, proposal: &PrePrepare) -> bool
    requires signer { IsTrue (is_replica members.now proposal.now.signer) }
    requires clients { All (λ x. IsTrue (is_client members.now x.client)) proposal.now.batch }
    ensures { result ≡ is_proposal members.now proposal.now }
{
    let cluster = proposal.signer.cluster;
    is_view(proposal.view)
        && is_slot(proposal.slot)
        && is_batch_of(members, cluster, &proposal.batch)
        && is_primary(members, cluster, proposal.view, proposal.signer.index)
}

/// The rule of a prepared certificate in a view change.
fn is_report_of(members: &Members, change: &ViewChange, certificate: &PreparedCert) -> bool
    requires { All (λ x. IsTrue (is_client members.now x.client)) certificate.now.batch }
    ensures { result ≡ is_report_of members.now change.now certificate.now }
{
    is_view(certificate.view)
        && is_slot(certificate.slot)
        && is_batch_of(members, change.signer.cluster, &certificate.batch)
        && is_open(change.low, members.window(), certificate.slot)
        && certificate.view < change.view
}

/// The same of each of them.
fn are_reports_of(members: &Members, change: &ViewChange, certificates: &[PreparedCert]) -> bool
    requires { All (λ k. All (λ x. IsTrue (is_client members.now x.client)) k.batch) certificates.now }
    ensures { result ≡ list_all (is_report_of members.now change.now) certificates.now }
{
    certificates
        .iter()
        .all(|certificate| is_report_of(members, change, certificate))
}

/// The rule of view changes.
pub(crate) fn is_view_change(members: &Members, change: &ViewChange) -> bool
    requires { All (λ k. All (λ x. IsTrue (is_client members.now x.client)) k.batch) change.now.prepared }
    ensures { result ≡ is_view_change members.now change.now }
{
    change.view >= 1
        && is_view(change.view)
        && change.low <= GREATEST_NUMBER
        && (change.low != 0 || change.proof.is_empty())
        && are_reports_of(members, change, change.prepared.as_slice())
}

/// Whether view changes are of a cluster and for a view.
fn are_for(cluster: u8, view: u64, changes: &[ViewChange]) -> bool
    ensures { result ≡ list_all (λ c. nat_eq c.signer.cluster cluster && nat_eq c.view view) changes.now }
{
    changes.iter().all(|change| change.signer.cluster == cluster && change.view == view)
}

/// The rule of new views.
pub(crate) fn is_new_view(members: &Members, new_view: &NewView) -> bool
    requires { IsTrue (is_replica members.now new_view.now.signer) }
    ensures { result ≡ is_new_view members.now new_view.now }
{
    let cluster = new_view.signer.cluster;
    new_view.view >= 1
        && is_view(new_view.view)
        && is_primary(members, cluster, new_view.view, new_view.signer.index)
        && new_view.changes.len() == quorum(members.size(cluster)) as usize
        && are_for(cluster, new_view.view, new_view.changes.as_slice())
}

/// The rule of Drvcs and Rvcs.
pub(crate) fn is_plea(plea: &Plea) -> bool
    ensures { result ≡ is_plea plea.now }
{
    is_slot(plea.round) && plea.count <= GREATEST_COUNT && plea.target != plea.signer.cluster
}
