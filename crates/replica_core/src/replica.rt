//! A replica, and a step of it.
ghost use Rattle.std.specs.Prelude.{◌≡◌, true, false, length, IfOk, OnOk, OnErr, IsTrue};
ghost use Rattle.std.specs.Option.{option_copied};
ghost use Rattle.std.specs.Result.{is_ok};
ghost use Rattle.fab_machine.specs.Step.{first, draft};
ghost use Rattle.replica_core.specs.Cores.{IsCore, with_state, IsShut, IsSame, IsFor, IsEmit, moves_by, stepped, KeepsHonest, book_of};

use crate::NoMemory;
use crate::events::{Event, Mover};
use crate::parts::Parts;
use fab_base::{Answer, Bytes, Item, StableVotes};
use round_exec::Rounds;
use std::marker::Model;

/// A replica (PBFT and GeoBFT): ordering in its cluster across views, the rounds of all clusters, its talk with them, and an outbox. It is a
/// value: an event goes in, one answer comes out. Contracts see the members, the replica's id, its state, and whether it was shut: where memory is refused in the
/// middle of a step, something may be counted and what follows from it not done, so from then on every step answers `NoMemory`.
#[derive(Drop)]
pub struct Core {
    parts: Parts,
    shut: bool,
}

impl Model for Core {
    ghost use Rattle.replica_core.specs.Cores.{Machine, IsCore};

    ghost Value = { Machine };

    ghost view = { λ c. record { roster = c.parts.roster; me = c.parts.me; state = c.parts.state; shut = c.shut } };

    ghost invariant = { λ c. IsCore c.parts c.shut };
}

impl Core {
    /// A replica of which nothing was heard.
    pub(crate) fn new(parts: Parts) -> Core
        requires { IsCore parts false }
        ensures { result ≡ record { roster = parts.roster; me = parts.me; state = parts.state; shut = false } }
    {
        Core { parts, shut: false }
    }

    /// One step: an event, and what the replica answers. A message that is heard is shaped for the replica's members.
    ///
    /// - `Hear` answers `Heard` with what came of the message. A reply is `Stray`.
    /// - `Batch` and `Nudge` answer the first of these that holds: `Changing`, `NotPrimary`, `WindowFull`, `Proposed`, `Waiting`.
    /// - `Emit` answers `Sent` with the first item of the outbox, or `Nothing` exactly where none waits.
    /// - `Execute` answers `Executed` with the next round, or `NotYet` with the first cluster whose certificate of it is missing.
    /// - `Checkpoint` (PBFT, section 4.3) answers the first of these that holds: `Voted`, with the first round for which a Checkpoint is due
    ///   and none was put; `Moved`, with the new low mark, the greatest stable round above the old one that was executed; `NotDue`, with
    ///   the next round for which a Checkpoint will be due. Where the mark moves, messages that were ahead or far are considered again.
    /// - `Timeout` (PBFT, section 4.4, and GeoBFT, remote view change) answers the first of these that holds: `Behind`, with the low mark,
    ///   where rounds up to it weren't executed here; `Asked`, with the view above the wanted one, where the own cluster's certificate of the
    ///   next round isn't kept and something is due; `Missed`, with the first cluster whose certificate of the next round is missing, where
    ///   the own one is kept and no Drvc of this target, round and count was said; `Calm`.
    ///
    /// `Heard`, `Proposed`, `Sent`, `Executed`, `Voted`, `Moved`, `Asked` and `Missed` make an entry in a journal; the others change nothing.
    ///
    /// It fails only where memory is refused now or was before, and then the replica is shut. `Emit` takes no memory.
    ///
    /// Whatever was heard before, by a lying member or an honest one: where a diary of what was heard, said and done was related to the
    /// state, it is so after the step, with what the step adds (`honest`); and a related diary is that of an honest replica, by the law of
    /// `fab_machine`.
    pub fn step(&mut self, event: Event) -> Result<Answer, NoMemory>
        requires { IsFor self.old.roster event }
        ensures answer { IfOk result (λ answer. answer ≡ (stepped self.old event).answer) }
        ensures state { OnOk result (self.new ≡ with_state self.old (stepped self.old event).state) }
        ensures live { OnOk result (self.old.shut ≡ false) }
        ensures err { OnErr result (IsShut self.old self.new) }
        ensures same { IsSame self.old self.new }
        ensures emits { IsEmit event → self.old.shut ≡ false → IsTrue (is_ok result) }
        ensures honest { OnOk result (KeepsHonest self.old event self.new) }
    {
        if self.shut {
            drop(event);
            return Err(NoMemory);
        }
        let answer = self.parts.step(event);
        self.shut = answer.is_err();
        answer
    }

    /// Whether the event would make an entry in a journal, want of memory aside: true exactly where it would answer `Proposed`, `Sent`,
    /// `Executed`, `Voted`, `Moved`, `Asked` or `Missed`, and never of a replica that is shut. Takes no memory.
    pub fn moves(&self, mover: Mover) -> bool
        ensures { result ≡ moves_by self.now mover }
    {
        if self.shut {
            return false;
        }
        match mover {
            Mover::Batch => self.parts.can_propose(false),
            Mover::Nudge => self.parts.can_propose(true),
            Mover::Emit => self.parts.first().is_some(),
            Mover::Execute => self.parts.can_execute(),
            Mover::Checkpoint => self.parts.can_checkpoint(),
            Mover::Timeout => self.parts.can_time_out(),
        }
    }

    /// The first item that waits to be sent: `None` exactly where none waits. Takes no memory.
    pub fn first(&self) -> Option<&Item>
        ensures { option_copied result ≡ first self.now.state }
    {
        self.parts.first()
    }

    /// How many items wait to be sent. Takes no memory.
    pub fn waiting(&self) -> usize
        ensures { result ≡ length self.now.state.outbox }
    {
        self.parts.outbox.len()
    }

    /// What is to be signed of the first item: empty where another signs it or nobody does, and `None` exactly where none waits. It fails
    /// only where memory is refused, or the replica is shut.
    pub fn draft(&self) -> Result<Option<Bytes>, NoMemory>
        ensures { IfOk result (λ bytes. bytes ≡ draft self.now.me self.now.state) }
    {
        if self.shut {
            return Err(NoMemory);
        }
        self.parts.draft()
    }

    /// The low mark, at first 0: what lies up to this round is let go, since a quorum of the cluster's members agree on it. Takes no memory.
    pub fn low(&self) -> u64
        ensures { result ≡ self.now.state.local.slots.low }
    {
        self.parts.order.low()
    }

    /// The proof of the low mark: the first Checkpoints of a quorum for it, by the index of their signers. It is empty at 0. Takes no memory.
    pub fn low_proof(&self) -> &StableVotes
        ensures { result.now ≡ self.now.state.local.proof }
    {
        self.parts.order.low_proof()
    }

    /// The rounds of all clusters: certificates, and the ledger with what it came to.
    pub fn rounds(&self) -> &Rounds
        ensures { result.now ≡ book_of self.now }
    {
        &self.parts.rounds
    }
}
