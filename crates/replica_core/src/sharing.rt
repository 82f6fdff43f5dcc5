//! Certificates (GeoBFT, global sharing): those that were formed or heard as shares are kept, and given to who asks.
ghost use Rattle.std.specs.Prelude.{◌≡◌, IfOk, OnOk, IsTrue};
ghost use Rattle.fab_base.specs.declared.messages.Message.{Message};
ghost use Rattle.fab_base.specs.Limits.{IsWithinLimits};
ghost use Rattle.fab_base.specs.Roster.{is_replica};
ghost use Rattle.fab_rules.specs.Shape.{IsShaped};
ghost use Rattle.fab_machine.specs.Joining.{after_out};
ghost use Rattle.fab_machine.specs.ReplicaState.{IsKeptCertificate};
ghost use Rattle.fab_machine.specs.Rounds.{keep_answer};
ghost use Rattle.fab_machine.specs.Sharing.{with_certificate, hear_share, hear_fetch};
ghost use Rattle.fab_machine.specs.declared.outs.Out.{Out};
ghost use Rattle.replica_core.specs.Inside.{IsSame, with_state};

use crate::NoMemory;
use crate::parts::Parts;
use crate::waiting::put_all;
use cluster_talk::given;
use fab_base::{Answer, Ask, CommitCert, Take};

impl Parts {
    /// A certificate is kept for its round, unless another one is; what was said of it as missing is let go.
    fn keep(&mut self, cert: CommitCert) -> Result<(), NoMemory>
        requires { IsKeptCertificate self.old.roster cert }
        ensures state { OnOk result (self.new ≡ with_state self.old (with_certificate self.old.state cert)) }
        ensures same { IsSame self.old self.new }
    {
        self.talk.forget(&cert);
        drop(self.rounds.keep(cert)?);
        Ok(())
    }

    /// A certificate of the own cluster was formed: it is kept, and shared by the primary of the view.
    pub(crate) fn certified(&mut self, cert: CommitCert) -> Result<(), NoMemory>
        requires { IsKeptCertificate self.old.roster cert }
        ensures state { OnOk result (self.new ≡ with_state self.old (after_out self.old.roster self.old.me self.old.state (Out.Certified cert))) }
        ensures same { IsSame self.old self.new }
    {
        let shares = self.talk.shared(self.order.view(), &cert)?;
        self.keep(cert)?;
        put_all(&mut self.outbox, shares)
    }

    /// Hears a share: the certificate is kept, and goes on to the own cluster where this replica is one of its receivers.
    pub(crate) fn hear_share(&mut self, cert: CommitCert) -> Result<Answer, NoMemory>
        requires limits { IsWithinLimits self.old.roster }
        requires member { IsTrue (is_replica self.old.roster self.old.me) }
        requires shaped { IsShaped self.old.roster (Message.Share cert) }
        ensures answer { IfOk result (λ answer. answer ≡ (hear_share self.old.roster self.old.me self.old.state cert).answer) }
        ensures state { OnOk result (self.new ≡ with_state self.old (hear_share self.old.roster self.old.me self.old.state cert).state) }
        ensures same { IsSame self.old self.new }
    {
        let how = self.take_answer(&cert);
        let shares = self.talk.passed_share(&cert, &how)?;
        self.keep(cert)?;
        put_all(&mut self.outbox, shares)?;
        Ok(Answer::Heard(how))
    }

    /// What a certificate that may be kept is answered.
    fn take_answer(&self, cert: &CommitCert) -> Take
        requires { IsKeptCertificate self.now.roster cert.now }
        ensures { result ≡ keep_answer self.now.state.rounds cert.now }
    {
        self.rounds.answer(cert)
    }

    /// Hears a Fetch: who asks for a certificate that is kept is given it.
    pub(crate) fn hear_fetch(&mut self, ask: Ask) -> Result<Answer, NoMemory>
        ensures answer { IfOk result (λ answer. answer ≡ (hear_fetch self.old.state ask).answer) }
        ensures state { OnOk result (self.new ≡ with_state self.old (hear_fetch self.old.state ask).state) }
        ensures same { IsSame self.old self.new }
    {
        match self.rounds.cert(ask.round, ask.cluster) {
            Some(cert) => {
                let shares = given(self.alloc(), cert, ask.asker)?;
                put_all(&mut self.outbox, shares)?;
                Ok(Answer::Heard(Take::Taken))
            }
            None => Ok(Answer::Heard(Take::Stray)),
        }
    }
}
