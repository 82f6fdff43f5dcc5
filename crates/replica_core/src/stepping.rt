//! Which event goes where.
ghost use Rattle.std.specs.Prelude.{◌≡◌, false, IfOk, OnOk, IsTrue};
ghost use Rattle.std.specs.Result.{is_ok};
ghost use Rattle.fab_base.specs.Limits.{IsWithinLimits};
ghost use Rattle.fab_base.specs.Roster.{is_replica};
ghost use Rattle.fab_machine.specs.ReplicaState.{IsReplicaState};
ghost use Rattle.fab_machine.specs.Step.{step};
ghost use Rattle.fab_machine.specs.Diaries.{MayCome};
ghost use Rattle.replica_core.specs.Cores.{IsFor, IsEmit, event_of};
ghost use Rattle.replica_core.specs.Inside.{IsSame, with_state};

use crate::NoMemory;
use crate::events::Event;
use crate::parts::Parts;
use fab_base::Answer;

impl Parts {
    /// One step.
    pub(crate) fn step(&mut self, event: Event) -> Result<Answer, NoMemory>
        requires limits { IsWithinLimits self.old.roster }
        requires member { IsTrue (is_replica self.old.roster self.old.me) }
        requires members { IsFor self.old.roster event }
        requires whole { IsReplicaState self.old.roster self.old.me self.old.state }
        ensures answer { IfOk result (λ answer. answer ≡ (step self.old.roster self.old.me self.old.state (event_of event)).answer) }
        ensures state { OnOk result (self.new ≡ with_state self.old (step self.old.roster self.old.me self.old.state (event_of event)).state) }
        ensures may { OnOk result (MayCome self.old.roster (event_of event)) }
        ensures emits { IsEmit event → IsTrue (is_ok result) }
        ensures same { IsSame self.old self.new }
    {
        match event {
            Event::Hear(shaped) => self.hear(shaped.into_message()),
            Event::Batch => self.propose(false),
            Event::Nudge => self.propose(true),
            Event::Emit { sig } => Ok(self.emit(sig)),
            Event::Execute => self.execute(),
            Event::Checkpoint => self.checkpoint(),
            Event::Timeout => self.time_out(),
        }
    }
}
