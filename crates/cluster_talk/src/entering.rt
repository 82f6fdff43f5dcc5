//! What a replica shares with other clusters, and what it owes those that asked where a view is entered.
ghost use Rattle.std.specs.Prelude.{◌≡◌, ◌++◌, ◌∷◌, [], IfOk, OnOk, IsTrue};
ghost use Rattle.fab_base.specs.Roster.{is_cluster};
ghost use Rattle.fab_rules.specs.Shape.{is_primary};
ghost use Rattle.geo_share.specs.Receiving.{recipients_of};
ghost use Rattle.fab_machine.specs.Rounds.{round_of};
ghost use Rattle.fab_machine.specs.Sharing.{share_item, shared, passed_share};
ghost use Rattle.cluster_talk.specs.Talking.{AreClusters, served_askers, shares_to, without_askers};

use crate::NoMemory;
use crate::sharing::{Items, passed_share, round_of, shared};
use crate::talking::Talk;
use fab_base::{CommitCert, Item, Members, Message, Take, primary};
use fab_machine::Asker;
use geo_share::recipients;
use std::alloc::Global;
use std::mem;

impl Talk {
    /// What the primary of the view shares of a certificate that was formed: one item, or none where this replica isn't it or there are no
    /// other clusters. It fails only where memory is refused.
    pub fn shared(&self, view: u64, cert: &CommitCert) -> Result<Items, NoMemory>
        ensures { IfOk result (λ items. items ≡ shared self.now.roster self.now.me view cert.now) }
    {
        shared(self.alloc(), &self.members, self.me, view, cert)
    }

    /// What goes on of a share that was heard and answered so: to the own cluster, where it was taken, is another cluster's, and this replica
    /// is one of its round's receivers. It fails only where memory is refused.
    pub fn passed_share(&self, cert: &CommitCert, how: &Take) -> Result<Items, NoMemory>
        ensures { IfOk result (λ items. items ≡ passed_share self.now.roster self.now.me cert.now how.now) }
    {
        passed_share(self.alloc(), &self.members, self.me, cert, how)
    }

    /// A view was entered (GeoBFT, remote view change): nobody is remembered who asked. Gives those whom this replica serves then, the first
    /// that asked first: all of them where it is the primary of the view, and else none. Takes no memory.
    pub fn enter(&mut self, view: u64) -> Vec<Asker>
        ensures served { result.items ≡ served_askers self.old.roster self.old.me view self.old.askers }
        ensures clusters { AreClusters self.old.roster result.items }
        ensures state { self.new ≡ without_askers self.old }
    {
        let none = Vec::new(self.alloc());
        let mut askers = mem::replace(&mut self.askers, none);
        if !self.is_primary(view) {
            askers.clear();
        }
        askers
    }

    /// Whether it is the primary of the view.
    fn is_primary(&self, view: u64) -> bool
        ensures { result ≡ is_primary self.now.roster self.now.me.cluster view self.now.me.index }
    {
        self.me.index == primary(view, self.members.size(self.me.cluster))
    }

    /// Shares of these certificates for a cluster that asked: each goes to the cluster's receivers of its round. It fails only where memory
    /// is refused.
    pub fn shares(&self, cluster: u8, certs: Vec<CommitCert>) -> Result<Items, NoMemory>
        requires { IsTrue (is_cluster self.now.roster cluster) }
        ensures { IfOk result (λ items. items ≡ shares_to self.now.roster cluster certs.items) }
    {
        let mut items = Items::new(self.alloc());
        add_shares(self.alloc(), &self.members, cluster, certs, &mut items).and(Ok(items))
    }
}

/// Adds a share of each certificate.
fn add_shares(
    alloc: Global,
    members: &Members,
    cluster: u8,
    certs: Vec<CommitCert>,
    items: &mut Items,
) -> Result<(), NoMemory>
    requires { IsTrue (is_cluster members.now cluster) }
    ensures { OnOk result (items.new ≡ items.old ++ shares_to members.now cluster certs.items) }
{
    for cert in certs {
        add_share(alloc, members, cluster, cert, items)?;
    }
    Ok(())
}

/// Adds a share of the certificate.
fn add_share(
    alloc: Global,
    members: &Members,
    cluster: u8,
    cert: CommitCert,
    items: &mut Items,
) -> Result<(), NoMemory>
    requires { IsTrue (is_cluster members.now cluster) }
    ensures { OnOk result (items.new ≡ items.old ++ share_item cert (recipients_of members.now cluster (round_of cert)) ∷ []) }
{
    match recipients(alloc, members, cluster, round_of(&cert)) {
        Ok(to) => {
            let message = Message::Share(cert);
            items.push(Item { message, to })?;
            Ok(())
        }
        Err(NoMemory) => {
            drop(cert);
            Err(NoMemory)
        }
    }
}
