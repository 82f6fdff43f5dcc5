//! The turn round a machine, the passes to it, and what a worker is told that finds the machine taken.

ghost use Rattle.std.specs.Prelude.{◌≡◌};

use crate::known::Known;
use crate::machine::Machine;
use crate::rule::{Setup, TurnRule};
use atomic_table::{Seat, Table};
use std::alloc::Global;

/// A machine that workers call one at a time. It is shared by reference, and may be where the machine is `Send`.
///
/// Contracts see the machine as it was handed in (`first_machine`) and the number of seats (`seats`), which never change.
#[derive(Drop)]
pub struct Turn<M: Machine> {
    pub(crate) table: Table<Option<M>, Known<M::Entry, M::Made>, Setup<M>, TurnRule<M>, Global>,
    pub(crate) seats: u8,
    ghost counts: { (table.shared.table_id.words ≡ 2) × (table.shared.table_id.slots ≡ 1) },
    ghost told: { table.shared.key.seats ≡ seats },
}

/// The right to call the machine under one or more seat numbers. One worker owns it, and it may be handed to another thread.
///
/// Contracts see its seat numbers (`numbers`) and what it knows of the history (`view`). A pass that is dropped takes its numbers with it: no
/// pass has every number again, and the turn is never closed.
#[derive(Drop)]
pub struct Pass<M: Machine> {
    pub(crate) seat: Seat<Option<M>, Known<M::Entry, M::Made>>,
    pub(crate) numbers: [bool; 256],
}

/// Another seat had the machine. Nothing has changed.
#[derive(Debug, Drop)]
pub struct Busy<C> {
    /// The call, as it was handed in.
    pub call: C,
    /// The number of the seat that had the machine, from 1 to the number of seats: none of the pass's own.
    pub seat: u64,
}
