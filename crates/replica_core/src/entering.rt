//! A view was entered: its primary gives the own cluster's certificates to the clusters that asked (GeoBFT, remote view change).
ghost use Rattle.std.specs.Prelude.{◌≡◌, ◌++◌, OnOk, IsTrue};
ghost use Rattle.std.specs.List.{flat_map};
ghost use Rattle.fab_base.specs.Roster.{is_cluster};
ghost use Rattle.fab_machine.specs.Sharing.{shares_for, after_entering};
ghost use Rattle.cluster_talk.specs.Talking.{AreClusters};
ghost use Rattle.replica_core.specs.Inside.{IsSame, with_state};

use crate::NoMemory;
use crate::parts::Parts;
use crate::waiting::put_all;
use cluster_talk::Talk;
use fab_base::{Item, ReplicaId};
use fab_machine::Asker;
use round_exec::Rounds;
use std::collections::VecDeque;

impl Parts {
    /// A view was entered with this base: those who asked are served, and nobody is remembered who did.
    pub(crate) fn enter(&mut self, base: u64) -> Result<(), NoMemory>
        ensures state { OnOk result (self.new ≡ with_state self.old (after_entering self.old.roster self.old.me self.old.state base)) }
        ensures same { IsSame self.old self.new }
    {
        let askers = self.talk.enter(self.order.view());
        serve(
            &self.rounds,
            &self.talk,
            self.me,
            askers,
            base,
            &mut self.outbox,
        )
    }
}

/// To each cluster that asked go the own cluster's certificates from the asked round up to the base.
fn serve(
    rounds: &Rounds,
    talk: &Talk,
    me: ReplicaId,
    askers: Vec<Asker>,
    base: u64,
    outbox: &mut VecDeque<Item>,
) -> Result<(), NoMemory>
    requires { AreClusters talk.now.roster askers.items }
    ensures { OnOk result (outbox.new.items ≡ outbox.old.items ++ flat_map (shares_for talk.now.roster me rounds.now.rounds.certificates base) askers.items) }
{
    for asker in askers {
        serve_one(rounds, talk, me, asker, base, outbox)?;
    }
    Ok(())
}

/// To a cluster that asked go the own cluster's certificates from the asked round up to the base, rounds rising.
fn serve_one(
    rounds: &Rounds,
    talk: &Talk,
    me: ReplicaId,
    asker: Asker,
    base: u64,
    outbox: &mut VecDeque<Item>,
) -> Result<(), NoMemory>
    requires { IsTrue (is_cluster talk.now.roster asker.cluster) }
    ensures { OnOk result (outbox.new.items ≡ outbox.old.items ++ shares_for talk.now.roster me rounds.now.rounds.certificates base asker) }
{
    let certs = rounds.certs(me.cluster, asker.round, base)?;
    let shares = talk.shares(asker.cluster, certs)?;
    put_all(outbox, shares)
}
