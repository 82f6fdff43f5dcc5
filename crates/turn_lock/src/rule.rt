//! The rule that every step of a turn keeps, and what each kind of step tells its caller. A turn is a table with one slot, in which the machine
//! is at home, and two words: the mark, which is the seat number that has the machine or 0, and the number of entries.

ghost use Rattle.turn_lock.specs.Views.{at_start, left, right, both, spent};
ghost use Rattle.turn_lock.specs.Rule.{Kept, Claimed, Recorded, Released, Looked, Learned};

use crate::known::Known;
use crate::machine::Machine;
use atomic_table::{Join, Play, Split, TableRule};
use std::marker::PhantomData;
use std::snapshot::Snapshot;

/// What a turn was made of, as its rule sees it.
#[derive(Drop)]
pub struct Setup<M> {
    /// The machine as it was handed in.
    pub machine: Snapshot<M>,
    /// How many seats there are.
    pub seats: u64,
    /// The numbers of the first pass.
    pub numbers: [bool; 256],
}

/// What is true of a turn between any two steps.
pub struct TurnRule<M: Machine> {
    of: PhantomData<M>,
}

impl<M: Machine> TableRule<Option<M>, Known<M::Entry, M::Made>, Setup<M>> for TurnRule<M> {
    ghost holds = { λ setup s. Kept M.journal M.made M.plays setup.machine.value setup.seats s };

    ghost first = { λ setup. at_start (M.made setup.machine.value) setup.seats setup.numbers };
}

/// The mark is set where it was 0.
pub struct Claim;

impl<M: Machine> Play<Option<M>, Known<M::Entry, M::Made>> for Claim {
    ghost then = { Claimed M.journal M.made M.plays };
}

/// The number of entries is raised by one.
pub struct Record;

impl<M: Machine> Play<Option<M>, Known<M::Entry, M::Made>> for Record {
    ghost then = { Recorded M.journal M.made M.plays };
}

/// The number of entries is read by the pass that holds the machine.
pub struct Look;

impl<M: Machine> Play<Option<M>, Known<M::Entry, M::Made>> for Look {
    ghost then = { Looked M.journal M.made M.plays };
}

/// The mark is read by a pass into which another was joined.
pub struct Learn;

impl<M: Machine> Play<Option<M>, Known<M::Entry, M::Made>> for Learn {
    ghost then = { Learned M.journal M.made M.plays };
}

/// The mark is set to 0.
pub struct Release;

impl<M: Machine> Play<Option<M>, Known<M::Entry, M::Made>> for Release {
    ghost then = { Released M.journal M.made M.plays };
}

/// How a pass is split in two, and two are joined.
pub struct Parting;

impl<E, D> Split<Known<E, D>> for Parting {
    ghost left = { left };

    ghost right = { right };
}

impl<E, D> Join<Known<E, D>> for Parting {
    ghost both = { both };

    ghost spent = { spent };
}
