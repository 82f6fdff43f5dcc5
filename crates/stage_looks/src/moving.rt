//! The workers that do one thing of the replica's own accord: batch, execute and checkpoint.

ghost use Rattle.std.specs.Prelude.{◌≡◌, ◌≢◌, []};
ghost use Rattle.turn_lock.specs.Views.{own};
ghost use Rattle.turn_lock.specs.Passes.{view, numbers, first_machine};
ghost use Rattle.run_words.specs.declared.movers.Mover as movers;
ghost use Rattle.party_turn.specs.Turns.{PartyTurn, IsPartyPass};
ghost use Rattle.stage_workers.specs.declared.look.Look.TheVariants.{Idle};
ghost use Rattle.stage_looks.specs.Acts.{IsStill, Enters};
ghost use Rattle.stage_looks.specs.Moving.{FitsMover};

use crate::doing::{Did, advance};
use crossbeam_utils::Backoff;
use party_turn::Acting;
use run_words::{Mover, Party};
use stage_workers::Look;
use turn_lock::{Pass, Turn};

/// What a worker owns that does one thing of the replica's own accord.
#[derive(Drop)]
pub struct MoverHand<P: Party> {
    /// Its pass of the turn.
    pub act: Pass<Acting<P>>,
    /// What it does: Batch, Nudge, Execute, Checkpoint or Timeout, and never Emit.
    pub mover: Mover,
    /// How many entries there were when it last found nothing to do.
    pub told: u64,
}

impl<P: Party> MoverHand<P> {
    /// A hand that has done nothing yet. Its pass is one under whose numbers nothing was entered. Takes no memory.
    pub fn new(act: Pass<Acting<P>>, mover: Mover) -> MoverHand<P>
        requires fresh { own (view act) ≡ [] }
        requires own { mover ≢ movers.Mover.Emit }
        ensures fits { (turn : PartyTurn P) → IsPartyPass P.made turn act → FitsMover P.made turn result }
        ensures is { (result.act ≡ act) × (result.mover ≡ mover) × (result.told ≡ 0) }
    {
        MoverHand {
            act,
            mover,
            told: 0,
        }
    }

    /// One look: it does what it can, in one claim of the turn.
    ///
    /// `Idle` comes where there was nothing to do after as many entries as `told` then says, and `NoMemory` where memory was refused, now or
    /// before. Where another worker has the turn it rests for a moment, and answers `Moved`. It makes one entry of its own at most, and only
    /// where it answers `Moved` (`enters`).
    pub fn look(&mut self, turn: &Turn<Acting<P>>) -> Look
        requires fits { FitsMover P.made turn.now self.old }
        ensures fits { FitsMover P.made turn.now self.new }
        ensures same { (numbers self.new.act ≡ numbers self.old.act) × (self.new.mover ≡ self.old.mover) }
        ensures idle { result ≡ Idle → IsStill (P.made (first_machine turn.now).first) self.new.mover self.new.told (view self.new.act) }
        ensures enters { Enters (P.made (first_machine turn.now).first) self.new.mover result (view self.old.act) (view self.new.act) }
    {
        match advance(turn, &mut self.act, self.mover) {
            Did::Moved => Look::Moved,
            Did::Nothing(entries) => {
                self.told = entries;
                Look::Idle
            }
            Did::Lost => Look::NoMemory,
            Did::Busy => {
                Backoff::new().snooze();
                Look::Moved
            }
        }
    }
}
