//! Execute: the next round, where all its certificates are kept.
ghost use Rattle.std.specs.Prelude.{◌≡◌, ◌≤◌, ◌+◌, length, IfOk, OnOk, IsTrue};
ghost use Rattle.fab_base.specs.declared.limits.TheConstants.{GREATEST_NUMBER};
ghost use Rattle.fab_base.specs.Limits.{IsWithinLimits};
ghost use Rattle.fab_base.specs.Roster.{is_replica};
ghost use Rattle.fab_rules.specs.Ledger.{lines_with};
ghost use Rattle.fab_machine.specs.ReplicaState.{IsReplicaState};
ghost use Rattle.fab_rules.specs.Format.{batch_fits};
ghost use Rattle.fab_rules.specs.Digests.{batch_digest};
ghost use Rattle.fab_machine.specs.Rounds.{next_round};
ghost use Rattle.fab_machine.specs.Step.{makes_entry, note_item, after_noting, own_block, execute_step};
ghost use Rattle.replica_core.specs.Inside.{IsSame, with_state};

use crate::NoMemory;
use crate::parts::Parts;
use bft_msg::batch_digest;
use fab_base::{
    Answer, Bytes, Duplicate, Item, Message, Note, NoteLine, NoteLines, Outcome, Outcomes,
    ReplicaId, Request, Targets,
};
use fab_rules::Block;
use round_exec::Ran;
use std::alloc::Global;

/// For each request its client, its stamp and its outcome.
fn lines(alloc: Global, batch: &[Request], outcomes: &[Outcome]) -> Result<NoteLines, NoMemory>
    ensures { IfOk result (λ lines. lines ≡ lines_with batch.now outcomes.now) }
{
    let mut lines = NoteLines::new(alloc);
    for (request, outcome) in batch.iter().zip(outcomes) {
        lines.push(NoteLine {
            client: request.client,
            stamp: request.stamp,
            outcome: outcome.duplicate()?,
        })?;
    }
    Ok(lines)
}

/// The reply to the clients of a block of the own cluster, which is within the greatest counts and lengths.
fn note(
    alloc: Global,
    me: ReplicaId,
    block: &Block,
    outcomes: &Outcomes,
    round: u64,
) -> Result<Item, NoMemory>
    requires { IsTrue (batch_fits block.now.batch) }
    ensures { IfOk result (λ item. item ≡ note_item me round (record { block = block.now; outcomes = outcomes.now })) }
{
    let note = Note {
        signer: me,
        round,
        digest: batch_digest(&block.batch),
        lines: lines(alloc, block.batch.as_slice(), outcomes.as_slice())?,
        sig: Bytes::new(alloc),
    };
    Ok(Item {
        message: Message::ReplyNote(note),
        to: Targets::new(alloc),
    })
}

impl Parts {
    /// After a round: local ordering is told of the own cluster's block, and of the chain of the ledger, which a Checkpoint of the round bears;
    /// and the reply to the block's clients joins the outbox, where clients find it. It has no receiver.
    fn note(&mut self, round: u64) -> Result<(), NoMemory>
        requires executed { round ≡ self.old.state.rounds.executed }
        requires next { round ≡ self.old.state.local.executed + 1 }
        requires upto { round ≤ GREATEST_NUMBER }
        ensures state { OnOk result (self.new ≡ with_state self.old (after_noting self.old.roster self.old.me self.old.state self.old.state.rounds (own_block self.old.roster self.old.me self.old.state.rounds))) }
        ensures same { IsSame self.old self.new }
    {
        let alloc = self.alloc();
        let cluster = self.me.cluster;
        if let Some(block) = self.rounds.block(round, cluster)
            && let Some(outcomes) = self.rounds.outcomes(round, cluster)
        {
            self.order
                .served(round, &block.batch, outcomes, self.rounds.chain())?;
            self.outbox
                .push_back(note(alloc, self.me, block, outcomes, round)?)?;
        }
        Ok(())
    }

    /// Executes the next round, where no certificate is missing.
    pub(crate) fn execute(&mut self) -> Result<Answer, NoMemory>
        requires limits { IsWithinLimits self.old.roster }
        requires member { IsTrue (is_replica self.old.roster self.old.me) }
        requires whole { IsReplicaState self.old.roster self.old.me self.old.state }
        ensures answer { IfOk result (λ answer. answer ≡ (execute_step self.old.roster self.old.me self.old.state (next_round (length self.old.roster.sizes) self.old.state.rounds)).answer) }
        ensures state { OnOk result (self.new ≡ with_state self.old (execute_step self.old.roster self.old.me self.old.state (next_round (length self.old.roster.sizes) self.old.state.rounds)).state) }
        ensures same { IsSame self.old self.new }
    {
        match self.rounds.execute()? {
            Ran::Executed { round } => {
                self.note(round)?;
                Ok(Answer::Executed { round })
            }
            Ran::NotYet { cluster } => Ok(Answer::NotYet { cluster }),
        }
    }

    /// Whether `execute` would execute a round. Takes no memory.
    pub(crate) fn can_execute(&self) -> bool
        ensures { result ≡ makes_entry (execute_step self.now.roster self.now.me self.now.state (next_round (length self.now.roster.sizes) self.now.state.rounds)).answer }
    {
        self.rounds.missing().is_none()
    }
}
