//! Pleas (GeoBFT, remote view change): one that is heard, and one that is said where a certificate of another cluster is missing.
ghost use Rattle.std.specs.Prelude.{◌≡◌, ◌+◌, length, IfOk, OnOk, IsTrue};
ghost use Rattle.fab_base.specs.declared.messages.Message.{Message};
ghost use Rattle.fab_base.specs.Roster.{is_cluster};
ghost use Rattle.fab_rules.specs.Shape.{IsShaped};
ghost use Rattle.fab_machine.specs.Joining.{after_told};
ghost use Rattle.fab_machine.specs.Pleading.{hear_drvc, drvc_counted, hear_rvc, rvc_counted, ask_next, plead, plead_by};
ghost use Rattle.fab_machine.specs.ReplicaState.{IsReplicaState};
ghost use Rattle.fab_machine.specs.Rounds.{next_round};
ghost use Rattle.fab_machine.specs.Step.{makes_entry};
ghost use Rattle.remote_view.specs.Pleading.{drvc_of, drvc_plight, rvc_of, rvc_plight};
ghost use Rattle.replica_core.specs.Inside.{IsSame, started, with_state};

use crate::NoMemory;
use crate::parts::Parts;
use crate::waiting::put_all;
use cluster_talk::given;
use fab_base::{Answer, GREATEST_NUMBER, Plea, Take};

impl Parts {
    /// Hears a Drvc: of the own cluster, it counts where the certificate that it misses isn't kept; else its signer is given that.
    pub(crate) fn hear_drvc(&mut self, plea: &Plea) -> Result<Answer, NoMemory>
        requires shaped { IsShaped self.old.roster (Message.Drvc plea.now) }
        requires whole { IsReplicaState self.old.roster self.old.me self.old.state }
        ensures answer { IfOk result (λ answer. answer ≡ (hear_drvc self.old.roster self.old.me self.old.state plea.now).answer) }
        ensures state { OnOk result (self.new ≡ with_state self.old (hear_drvc self.old.roster self.old.me self.old.state plea.now).state) }
        ensures same { IsSame self.old self.new }
    {
        if plea.signer.cluster != self.me.cluster {
            return Ok(Answer::Heard(Take::Stray));
        }
        match self.rounds.cert(plea.round, plea.target) {
            Some(cert) => {
                let shares = given(self.alloc(), cert, plea.signer)?;
                put_all(&mut self.outbox, shares)?;
                Ok(Answer::Heard(Take::Past { at: plea.round }))
            }
            None => self.count_drvc(plea),
        }
    }

    /// Counts a Drvc of the own cluster.
    fn count_drvc(&mut self, plea: &Plea) -> Result<Answer, NoMemory>
        requires shaped { IsShaped self.old.roster (Message.Drvc plea.now) }
        requires whole { IsReplicaState self.old.roster self.old.me self.old.state }
        requires own { plea.now.signer.cluster ≡ self.old.me.cluster }
        ensures answer { IfOk result (λ answer. answer ≡ (drvc_counted self.old.roster self.old.me self.old.state plea.now (drvc_plight self.old.state.pleading (drvc_of plea.now))).answer) }
        ensures state { OnOk result (self.new ≡ with_state self.old (drvc_counted self.old.roster self.old.me self.old.state plea.now (drvc_plight self.old.state.pleading (drvc_of plea.now))).state) }
        ensures same { IsSame self.old self.new }
    {
        let (how, items) = self.talk.hear_drvc(plea)?;
        put_all(&mut self.outbox, items)?;
        Ok(Answer::Heard(how))
    }

    /// Hears an Rvc: to the own cluster, it counts and goes on, and where enough were heard it is noted who asks, and the next view is asked for.
    pub(crate) fn hear_rvc(&mut self, plea: Plea) -> Result<Answer, NoMemory>
        requires shaped { IsShaped self.old.roster (Message.Rvc plea) }
        requires whole { IsReplicaState self.old.roster self.old.me self.old.state }
        ensures answer { IfOk result (λ answer. answer ≡ (hear_rvc self.old.roster self.old.me self.old.state plea).answer) }
        ensures state { OnOk result (self.new ≡ with_state self.old (hear_rvc self.old.roster self.old.me self.old.state plea).state) }
        ensures same { IsSame self.old self.new }
    {
        if plea.target != self.me.cluster {
            drop(plea);
            return Ok(Answer::Heard(Take::Stray));
        }
        self.count_rvc(plea)
    }

    /// Counts an Rvc to the own cluster.
    fn count_rvc(&mut self, plea: Plea) -> Result<Answer, NoMemory>
        requires shaped { IsShaped self.old.roster (Message.Rvc plea) }
        requires whole { IsReplicaState self.old.roster self.old.me self.old.state }
        requires own { plea.target ≡ self.old.me.cluster }
        ensures answer { IfOk result (λ answer. answer ≡ (rvc_counted self.old.roster self.old.me self.old.state plea (rvc_plight self.old.state.pleading (rvc_of plea))).answer) }
        ensures state { OnOk result (self.new ≡ with_state self.old (rvc_counted self.old.roster self.old.me self.old.state plea (rvc_plight self.old.state.pleading (rvc_of plea))).state) }
        ensures same { IsSame self.old self.new }
    {
        let (how, items, starts) = self.talk.hear_rvc(plea)?;
        put_all(&mut self.outbox, items)?;
        self.start(starts)?;
        Ok(Answer::Heard(how))
    }

    /// Where enough Rvcs were heard, the next view is asked for.
    fn start(&mut self, starts: bool) -> Result<(), NoMemory>
        ensures state { OnOk result (self.new ≡ with_state self.old (started self.old.roster self.old.me self.old.state starts)) }
        ensures same { IsSame self.old self.new }
    {
        if starts { self.ask_next() } else { Ok(()) }
    }

    /// The next view is asked for, where none is asked for yet and there is one. The answer isn't told.
    fn ask_next(&mut self) -> Result<(), NoMemory>
        ensures state { OnOk result (self.new ≡ with_state self.old
            (after_told self.old.roster self.old.me self.old.state (ask_next self.old.roster self.old.me self.old.state.local self.old.state.local.changing)).state) }
        ensures same { IsSame self.old self.new }
    {
        let view = self.order.view();
        if self.order.changing().is_some() || view >= GREATEST_NUMBER {
            return Ok(());
        }
        let told = self.order.ask(view + 1)?;
        drop(self.follow(told)?);
        Ok(())
    }

    /// Says a Drvc for the first cluster whose certificate of the next round is missing, where none of this target, round and count was said.
    pub(crate) fn plead(&mut self) -> Result<Answer, NoMemory>
        ensures answer { IfOk result (λ answer. answer ≡ (plead_by self.old.roster self.old.me self.old.state (next_round (length self.old.roster.sizes) self.old.state.rounds)).answer) }
        ensures state { OnOk result (self.new ≡ with_state self.old (plead_by self.old.roster self.old.me self.old.state (next_round (length self.old.roster.sizes) self.old.state.rounds)).state) }
        ensures same { IsSame self.old self.new }
    {
        match self.rounds.missing() {
            Some(cluster) => self.plead_for(cluster),
            None => Ok(Answer::Calm),
        }
    }

    /// Says a Drvc for the certificate of this cluster in the next round, where none of this target, round and count was said.
    fn plead_for(&mut self, cluster: u8) -> Result<Answer, NoMemory>
        requires { IsTrue (is_cluster self.old.roster cluster) }
        ensures answer { IfOk result (λ answer. answer ≡ (plead self.old.roster self.old.me self.old.state cluster (self.old.state.rounds.executed + 1)).answer) }
        ensures state { OnOk result (self.new ≡ with_state self.old (plead self.old.roster self.old.me self.old.state cluster (self.old.state.rounds.executed + 1)).state) }
        ensures same { IsSame self.old self.new }
    {
        let round = self.rounds.next();
        match self.talk.plead(cluster, round)? {
            Some(item) => {
                self.outbox.push_back(item)?;
                Ok(Answer::Missed { cluster })
            }
            None => Ok(Answer::Calm),
        }
    }

    /// Whether `plead` would say one. Takes no memory.
    pub(crate) fn would_plead(&self) -> bool
        ensures { result ≡ makes_entry (plead_by self.now.roster self.now.me self.now.state (next_round (length self.now.roster.sizes) self.now.state.rounds)).answer }
    {
        match self.rounds.missing() {
            Some(cluster) => self.talk.would_plead(cluster, self.rounds.next()),
            None => false,
        }
    }
}
