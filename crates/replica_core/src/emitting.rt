//! Emit: the first item leaves the outbox.
ghost use Rattle.std.specs.Prelude.{◌≡◌, IfOk, IsTrue};
ghost use Rattle.std.specs.Option.{option_copied};
ghost use Rattle.fab_rules.specs.Statements.{signer_of};
ghost use Rattle.fab_machine.specs.Items.{is_own};
ghost use Rattle.fab_machine.specs.ReplicaState.{IsReplicaState};
ghost use Rattle.fab_machine.specs.Step.{emit_step, first, draft};
ghost use Rattle.replica_core.specs.Inside.{with_state};

use crate::NoMemory;
use crate::parts::Parts;
use bft_msg::{content, signer, with_signature};
use fab_base::{Answer, Bytes, Item, Message, Who};

impl Parts {
    /// Whether this replica itself signs the message.
    fn signs(&self, message: &Message) -> bool
        ensures { result ≡ is_own self.now.me (signer_of message.now) }
    {
        signer(message) == Some(Who::Replica(self.me))
    }

    /// Sends the first item, with this signature where the replica itself signs it. Takes no memory.
    pub(crate) fn emit(&mut self, sig: Bytes) -> Answer
        ensures answer { result ≡ (emit_step self.old.me self.old.state sig self.old.state.outbox).answer }
        ensures state { self.new ≡ with_state self.old (emit_step self.old.me self.old.state sig self.old.state.outbox).state }
    {
        match self.outbox.pop_front() {
            Some(Item { message, to }) => {
                let message = if self.signs(&message) {
                    with_signature(message, sig)
                } else {
                    message
                };
                Answer::Sent(Item { message, to })
            }
            None => Answer::Nothing,
        }
    }

    /// The first item that waits.
    pub(crate) fn first(&self) -> Option<&Item>
        ensures { option_copied result ≡ first self.now.state }
    {
        self.outbox.front()
    }

    /// What is to be signed of the first item: nothing where this replica doesn't sign it.
    pub(crate) fn draft(&self) -> Result<Option<Bytes>, NoMemory>
        requires { IsReplicaState self.now.roster self.now.me self.now.state }
        ensures { IfOk result (λ bytes. bytes ≡ draft self.now.me self.now.state) }
    {
        match self.first() {
            Some(item) if self.signs(&item.message) => {
                Ok(Some(content(self.alloc(), &item.message)?))
            }
            Some(_) => Ok(Some(Bytes::new(self.alloc()))),
            None => Ok(None),
        }
    }
}
