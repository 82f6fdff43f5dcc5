//! Hear: a message comes in.
ghost use Rattle.std.specs.Prelude.{◌≡◌, IfOk, OnOk, IsTrue};
ghost use Rattle.fab_base.specs.Limits.{IsWithinLimits};
ghost use Rattle.fab_base.specs.Roster.{is_replica};
ghost use Rattle.fab_rules.specs.Shape.{IsShaped};
ghost use Rattle.fab_machine.specs.ReplicaState.{IsReplicaState};
ghost use Rattle.fab_machine.specs.Step.{hear_step};
ghost use Rattle.replica_core.specs.Inside.{IsSame, attend_step, with_state};

use crate::NoMemory;
use crate::parts::Parts;
use fab_base::{Answer, Message};

impl Parts {
    /// Hears a message: what other clusters may say is the replica's own, all else is for ordering in its cluster.
    pub(crate) fn hear(&mut self, message: Message) -> Result<Answer, NoMemory>
        requires limits { IsWithinLimits self.old.roster }
        requires member { IsTrue (is_replica self.old.roster self.old.me) }
        requires shaped { IsShaped self.old.roster message }
        requires whole { IsReplicaState self.old.roster self.old.me self.old.state }
        ensures answer { IfOk result (λ answer. answer ≡ (hear_step self.old.roster self.old.me self.old.state message).answer) }
        ensures state { OnOk result (self.new ≡ with_state self.old (hear_step self.old.roster self.old.me self.old.state message).state) }
        ensures same { IsSame self.old self.new }
    {
        match message {
            Message::Share(cert) => self.hear_share(cert),
            Message::Fetch(ask) => self.hear_fetch(ask),
            Message::Drvc(plea) => {
                let told = self.hear_drvc(&plea);
                drop(plea);
                told
            }
            Message::Rvc(plea) => self.hear_rvc(plea),
            other @ (Message::Request(_)
            | Message::PrePrepare(_)
            | Message::Prepare(_)
            | Message::Commit(_)
            | Message::Checkpoint(_)
            | Message::ViewChange(_)
            | Message::NewView(_)
            | Message::ReplyNote(_)) => self.attend(other),
        }
    }

    /// Hears a message that is for ordering in the own cluster. What it brings about is taken over.
    fn attend(&mut self, message: Message) -> Result<Answer, NoMemory>
        requires limits { IsWithinLimits self.old.roster }
        requires member { IsTrue (is_replica self.old.roster self.old.me) }
        requires shaped { IsShaped self.old.roster message }
        requires whole { IsReplicaState self.old.roster self.old.me self.old.state }
        ensures answer { IfOk result (λ answer. answer ≡ (attend_step self.old.roster self.old.me self.old.state message).answer) }
        ensures state { OnOk result (self.new ≡ with_state self.old (attend_step self.old.roster self.old.me self.old.state message).state) }
        ensures same { IsSame self.old self.new }
    {
        let told = self.order.hear(message)?;
        self.follow(told)
    }
}
