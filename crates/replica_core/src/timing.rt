//! Timeout: the replica waited long enough.
ghost use Rattle.std.specs.Prelude.{◌≡◌, ◌+◌, true, false, IfOk, OnOk, IsTrue};
ghost use Rattle.fab_base.specs.Limits.{IsWithinLimits};
ghost use Rattle.fab_base.specs.Roster.{is_replica};
ghost use Rattle.fab_machine.specs.Pleading.{own_is_kept, timeout_step};
ghost use Rattle.fab_machine.specs.ReplicaState.{IsReplicaState};
ghost use Rattle.fab_machine.specs.Rounds.{knows_others};
ghost use Rattle.fab_machine.specs.Step.{makes_entry};
ghost use Rattle.replica_core.specs.Inside.{IsSame, with_state};

use crate::NoMemory;
use crate::parts::Parts;
use fab_base::Answer;
use view_order::ViewTry;

impl Parts {
    /// Asks for the next view, where something is due that didn't come and the own cluster's certificate of the next round isn't kept; where
    /// that is kept, and another cluster's is missing, that is reported (PBFT, section 4.4, and GeoBFT, remote view change).
    pub(crate) fn time_out(&mut self) -> Result<Answer, NoMemory>
        requires limits { IsWithinLimits self.old.roster }
        requires member { IsTrue (is_replica self.old.roster self.old.me) }
        requires whole { IsReplicaState self.old.roster self.old.me self.old.state }
        ensures answer { IfOk result (λ answer. answer ≡ (timeout_step self.old.roster self.old.me self.old.state).answer) }
        ensures state { OnOk result (self.new ≡ with_state self.old (timeout_step self.old.roster self.old.me self.old.state).state) }
        ensures same { IsSame self.old self.new }
    {
        if self.own_is_kept() {
            self.report()
        } else {
            self.ask()
        }
    }

    /// The own cluster did its part of the next round: a certificate of another cluster may be missing. Ordering asks for no view then.
    fn report(&mut self) -> Result<Answer, NoMemory>
        requires whole { IsReplicaState self.old.roster self.old.me self.old.state }
        requires own { own_is_kept self.old.me self.old.state.rounds ≡ true }
        ensures answer { IfOk result (λ answer. answer ≡ (timeout_step self.old.roster self.old.me self.old.state).answer) }
        ensures state { OnOk result (self.new ≡ with_state self.old (timeout_step self.old.roster self.old.me self.old.state).state) }
        ensures same { IsSame self.old self.new }
    {
        let low = self.order.low();
        if self.rounds.next() <= low {
            return Ok(Answer::Behind { low });
        }
        self.plead()
    }

    /// The own cluster's certificate of the next round isn't kept: ordering may ask for the next view.
    fn ask(&mut self) -> Result<Answer, NoMemory>
        requires limits { IsWithinLimits self.old.roster }
        requires member { IsTrue (is_replica self.old.roster self.old.me) }
        requires whole { IsReplicaState self.old.roster self.old.me self.old.state }
        requires own { own_is_kept self.old.me self.old.state.rounds ≡ false }
        ensures answer { IfOk result (λ answer. answer ≡ (timeout_step self.old.roster self.old.me self.old.state).answer) }
        ensures state { OnOk result (self.new ≡ with_state self.old (timeout_step self.old.roster self.old.me self.old.state).state) }
        ensures same { IsSame self.old self.new }
    {
        let known = self.knows_next();
        let told = self.order.timeout(false, known)?;
        self.follow(told)
    }

    /// Whether `time_out` would ask for a view or report a certificate. Takes no memory.
    pub(crate) fn can_time_out(&self) -> bool
        requires live { self.now.stuck ≡ false }
        requires whole { IsReplicaState self.now.roster self.now.me self.now.state }
        ensures { result ≡ makes_entry (timeout_step self.now.roster self.now.me self.now.state).answer }
    {
        if self.own_is_kept() {
            self.order.low() < self.rounds.next() && self.would_plead()
        } else {
            let known = self.knows_next();
            self.order.can(ViewTry::Timeout { own: false, known })
        }
    }

    /// Whether the own cluster's certificate of the next round is kept.
    fn own_is_kept(&self) -> bool
        ensures { result ≡ own_is_kept self.now.me self.now.state.rounds }
    {
        self.rounds
            .cert(self.rounds.next(), self.me.cluster)
            .is_some()
    }

    /// Whether another cluster's certificate of the next round is kept.
    fn knows_next(&self) -> bool
        ensures { result ≡ knows_others self.now.me.cluster self.now.state.rounds.certificates (self.now.state.rounds.executed + 1) }
    {
        self.rounds
            .knows_others(self.me.cluster, self.rounds.next())
    }
}
