//! Checkpoint: a round that is due is voted for, or the low mark moves.
ghost use Rattle.std.specs.Prelude.{◌≡◌, false, IfOk, OnOk, IsTrue};
ghost use Rattle.fab_base.specs.Limits.{IsWithinLimits};
ghost use Rattle.fab_base.specs.Roster.{is_replica};
ghost use Rattle.fab_machine.specs.ReplicaState.{IsReplicaState};
ghost use Rattle.fab_machine.specs.Step.{Event, step, can_checkpoint};
ghost use Rattle.replica_core.specs.Inside.{IsSame, with_state};

use crate::NoMemory;
use crate::parts::Parts;
use fab_base::Answer;
use view_order::ViewTry;

impl Parts {
    /// Votes for the first round for which a Checkpoint is due, or else moves the low mark to the greatest stable round that was executed.
    /// Local ordering answers; what it puts joins the outbox, and certificates that were formed are kept for their rounds.
    pub(crate) fn checkpoint(&mut self) -> Result<Answer, NoMemory>
        requires limits { IsWithinLimits self.old.roster }
        requires member { IsTrue (is_replica self.old.roster self.old.me) }
        requires whole { IsReplicaState self.old.roster self.old.me self.old.state }
        ensures answer { IfOk result (λ answer. answer ≡ (step self.old.roster self.old.me self.old.state Event.Checkpoint).answer) }
        ensures state { OnOk result (self.new ≡ with_state self.old (step self.old.roster self.old.me self.old.state Event.Checkpoint).state) }
        ensures same { IsSame self.old self.new }
    {
        let told = self.order.checkpoint()?;
        self.follow(told)
    }

    /// Whether `checkpoint` would vote for a round or move the low mark. Takes no memory.
    pub(crate) fn can_checkpoint(&self) -> bool
        requires { self.now.stuck ≡ false }
        ensures { result ≡ can_checkpoint self.now.roster self.now.me self.now.state.local }
    {
        self.order.can(ViewTry::Checkpoint)
    }
}
