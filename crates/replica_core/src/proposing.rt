//! Batch and Nudge: the primary proposes.
ghost use Rattle.std.specs.Prelude.{◌≡◌, false, IfOk, OnOk};
ghost use Rattle.fab_machine.specs.ReplicaState.{IsReplicaState};
ghost use Rattle.fab_machine.specs.Step.{makes_entry, propose_step};
ghost use Rattle.fab_machine.specs.Rounds.{knows_others};
ghost use Rattle.replica_core.specs.Inside.{IsSame, with_state};

use crate::NoMemory;
use crate::parts::Parts;
use fab_base::Answer;
use view_order::ViewTry;

impl Parts {
    /// Whether another cluster's certificate of the round is kept that is the next one to be proposed.
    fn knows_others(&self) -> bool
        ensures { result ≡ knows_others self.now.me.cluster self.now.state.rounds.certificates self.now.state.local.next }
    {
        self.rounds.knows_others(self.me.cluster, self.order.next())
    }

    /// Proposes the next batch, where this replica is the primary and one is due.
    pub(crate) fn propose(&mut self, nudged: bool) -> Result<Answer, NoMemory>
        requires { IsReplicaState self.old.roster self.old.me self.old.state }
        ensures answer { IfOk result (λ answer. answer ≡ (propose_step self.old.roster self.old.me self.old.state nudged).answer) }
        ensures state { OnOk result (self.new ≡ with_state self.old (propose_step self.old.roster self.old.me self.old.state nudged).state) }
        ensures same { IsSame self.old self.new }
    {
        let known = self.knows_others();
        let told = self.order.propose(nudged, known)?;
        self.follow(told)
    }

    /// Whether `propose` would propose. Takes no memory.
    pub(crate) fn can_propose(&self, nudged: bool) -> bool
        requires { self.now.stuck ≡ false }
        ensures { result ≡ makes_entry (propose_step self.now.roster self.now.me self.now.state nudged).answer }
    {
        let known = self.knows_others();
        self.order.can(ViewTry::Propose { nudged, known })
    }
}
