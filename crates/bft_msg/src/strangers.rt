//! The first pass: whether whoever a part names takes part.
ghost use Rattle.std.specs.Prelude.{◌≡◌};
ghost use Rattle.fab_base.specs.Roster.{is_cluster, is_client, is_replica};
ghost use Rattle.fab_rules.specs.declared.misfits.Misfit.{Misfit};
ghost use Rattle.fab_rules.specs.Shape.{is_known, unless};
ghost use Rattle.bft_msg.specs.Passing.{Clears, NoneIs};

use crate::check::Check;
use fab_base::{ClientId, Members, Message, ReplicaId, Request, StableVote, ViewChange, Vote, Who};
use fab_rules::Misfit;

/// Whether there is a cluster of this number.
fn is_cluster(members: &Members, cluster: u8) -> bool
    ensures { result ≡ is_cluster members.now cluster }
{
    cluster >= 1 && cluster <= members.clusters()
}

/// Whether the replica takes part.
fn is_replica(members: &Members, replica: ReplicaId) -> bool
    ensures { result ≡ is_replica members.now replica }
{
    members.has(Who::Replica(replica))
}

/// Whether the client takes part.
fn is_client(members: &Members, client: ClientId) -> bool
    ensures { result ≡ is_client members.now client }
{
    members.has(Who::Client(client))
}

/// Whether the message's signer or asker takes part, and each cluster that it names.
fn is_known(members: &Members, message: &Message) -> bool
    ensures { result ≡ is_known members.now message.now }
{
    match message {
        Message::Request(x) => is_client(members, x.client),
        Message::PrePrepare(x) => is_replica(members, x.signer),
        Message::Prepare(x) => is_replica(members, x.signer),
        Message::Commit(x) => is_replica(members, x.signer),
        Message::Checkpoint(x) => is_replica(members, x.signer),
        Message::ViewChange(x) => is_replica(members, x.signer),
        Message::NewView(x) => is_replica(members, x.signer),
        Message::Drvc(x) => is_replica(members, x.signer) && is_cluster(members, x.target),
        Message::Rvc(x) => is_replica(members, x.signer) && is_cluster(members, x.target),
        Message::ReplyNote(x) => is_replica(members, x.signer),
        Message::Share(x) => is_cluster(members, x.cluster),
        Message::Fetch(x) => is_replica(members, x.asker) && is_cluster(members, x.cluster),
    }
}

/// A stranger, unless the part is known.
fn unless(known: bool, part: u32) -> Result<(), Misfit>
    ensures { Clears NoneIs (unless known (Misfit.Stranger part)) result }
{
    if known {
        Ok(())
    } else {
        Err(Misfit::Stranger { part })
    }
}

/// The question whether a part is known to the members.
#[derive(Clone, Copy, Drop)]
pub(crate) struct Strangers<'a> {
    /// Who takes part.
    pub(crate) members: &'a Members,
}

impl<'a> Check for Strangers<'a> {
    ghost use Rattle.fab_rules.specs.Shape.{stranger_at};
    ghost use Rattle.bft_msg.specs.Passing.{NoneIs};

    type Fault = Misfit;

    ghost may = { λ s p. Unit {0} };

    ghost wrong = { λ s. stranger_at s.members.now };

    ghost free = { NoneIs };

    fn message(&self, message: &Message) -> Result<(), Misfit> {
        unless(is_known(self.members, message), 0)
    }

    fn request(&self, part: u32, request: &Request) -> Result<(), Misfit> {
        unless(is_client(self.members, request.client), part)
    }

    fn prepare(&self, part: u32, vote: &Vote) -> Result<(), Misfit> {
        unless(is_replica(self.members, vote.signer), part)
    }

    fn commit(&self, part: u32, vote: &Vote) -> Result<(), Misfit> {
        unless(is_replica(self.members, vote.signer), part)
    }

    fn checkpoint(&self, part: u32, vote: &StableVote) -> Result<(), Misfit> {
        unless(is_replica(self.members, vote.signer), part)
    }

    fn view_change(&self, part: u32, change: &ViewChange) -> Result<(), Misfit> {
        unless(is_replica(self.members, change.signer), part)
    }
}
