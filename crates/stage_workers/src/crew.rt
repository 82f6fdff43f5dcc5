//! What workers share, and what one look of one of them is.

use crate::gate::Gate;
use crate::look::Look;
use std::sync::Wait;

/// What all workers of a crew share. What one worker owns is its hand.
///
/// Contracts know a crew by three relations: which hands fit it, which hand may come of which by looks (`follows`, which is reflexive and
/// transitive), and what a look tells (`looked`, between the hand before, the answer and the hand after).
pub trait Crew {
    ghost use Rattle.stage_workers.specs.declared.look.Look.{Look};

    /// What one worker owns.
    type Hand: Send;

    /// How a gate tells workers apart.
    type Worker: Copy + Send;

    /// That this hand fits this crew, so that its worker may look.
    ghost fits: { Self → Self.Hand → Type 0 };

    /// That the second hand may come of the first by looks.
    ghost follows: { Self → Self.Hand → Self.Hand → Type 0 };

    /// That a look which found the first hand and gave this answer may leave the second.
    ghost looked: { Self → Self.Hand → Look → Self.Hand → Type 0 };

    /// One look of one worker, which passes the gate first. It does a bounded piece of work, as far as there is any: `Moved` asks for another look.
    /// It may try again for a while, by a [`Patience`](crate::Patience), before it answers `Idle`, and rest for a moment where it was told that
    /// another has what it wants.
    fn look<R: Wait, G: Gate<Self::Worker>>(&self, rt: &R, hand: &mut Self::Hand, gate: &G) -> Look
        requires { fits self.now hand.old }
        ensures fits { fits self.now hand.new }
        ensures follows { follows self.now hand.old hand.new }
        ensures looked { looked self.now hand.old result hand.new };

    ghost reflexive: { (c : Self) (h : Self.Hand) → follows c h h };

    ghost transitive: { (c : Self) (f g h : Self.Hand) → follows c f g → follows c g h → follows c f h };
}
