//! What ordering brings about is taken over: items join the outbox or leave it, certificates are kept and shared, and where a view was entered
//! those are served that asked.
ghost use Rattle.std.specs.Prelude.{◌≡◌, IfOk, OnOk};
ghost use Rattle.fab_base.specs.declared.messages.CommitCert.{CommitCert};
ghost use Rattle.fab_rules.specs.Lists.{In};
ghost use Rattle.fab_machine.specs.Joining.{after_out, after_outs};
ghost use Rattle.fab_machine.specs.ReplicaState.{IsKeptCertificate};
ghost use Rattle.fab_machine.specs.declared.outs.Out.{Out};
ghost use Rattle.replica_core.specs.Inside.{IsSame, with_state};

use crate::NoMemory;
use crate::parts::Parts;
use crate::waiting::clear;
use fab_base::Answer;
use fab_machine::{Out, Outs};
use view_order::Local;

impl Parts {
    /// Takes one over.
    fn take_one(&mut self, out: Out) -> Result<(), NoMemory>
        requires { (k : CommitCert) → out ≡ Out.Certified k → IsKeptCertificate self.old.roster k }
        ensures state { OnOk result (self.new ≡ with_state self.old (after_out self.old.roster self.old.me self.old.state out)) }
        ensures same { IsSame self.old self.new }
    {
        match out {
            Out::Put(item) => {
                self.outbox.push_back(item)?;
                Ok(())
            }
            Out::Clear => {
                clear(&mut self.outbox);
                Ok(())
            }
            Out::Certified(cert) => self.certified(cert),
            Out::Entered(base) => self.enter(base),
        }
    }

    /// Takes all of them over, in order.
    fn take(&mut self, outs: Outs) -> Result<(), NoMemory>
        requires { (k : CommitCert) → In (Out.Certified k) outs → IsKeptCertificate self.old.roster k }
        ensures state { OnOk result (self.new ≡ with_state self.old (after_outs self.old.roster self.old.me self.old.state outs)) }
        ensures same { IsSame self.old self.new }
    {
        for out in outs.into_vec() {
            self.take_one(out)?;
        }
        Ok(())
    }

    /// Takes over what ordering told, and answers as it did.
    pub(crate) fn follow(&mut self, told: Local) -> Result<Answer, NoMemory>
        requires { (k : CommitCert) → In (Out.Certified k) told.outs → IsKeptCertificate self.old.roster k }
        ensures answer { IfOk result (λ answer. answer ≡ told.answer) }
        ensures state { OnOk result (self.new ≡ with_state self.old (after_outs self.old.roster self.old.me self.old.state told.outs)) }
        ensures same { IsSame self.old self.new }
    {
        self.take(told.outs).and(Ok(told.answer))
    }
}
