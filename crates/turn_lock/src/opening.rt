//! A machine is put into a turn.

ghost use Rattle.std.specs.Prelude.{◌≡◌, ◌≢◌, ℕ, ◌<◌, List, [], ◌∷◌, IfOk, IfErr};
ghost use Rattle.turn_lock.specs.Numbers.{AreFirst};
ghost use Rattle.turn_lock.specs.Passes.{view, numbers, first_machine, IsPassOf};
ghost use Rattle.turn_lock.specs.Passes.{seats as seats_of};

use crate::lock::{Pass, Turn};
use crate::machine::Machine;
use crate::numbers::first_numbers;
use crate::rule::Setup;
use atomic_table::Table;
use std::alloc::{AllocError, Global};
use std::snapshot::Snapshot;

/// Puts a machine whose journal is empty into a turn with `seats` seats, from 1 to 255, and gives the pass that has the numbers from 1 to
/// `seats` and has seen nothing. It fails for want of memory alone, and then gives the machine back as it was.
pub fn turn<M: Machine>(
    alloc: Global,
    machine: M,
    seats: u8,
) -> Result<(Turn<M>, Pass<M>), (AllocError, M)>
    requires seats { 0 < seats }
    requires fresh { M.journal machine ≡ [] }
    ensures pass { IfOk result (λ t. IsPassOf M.plays M.made t.0 t.1) }
    ensures numbers { IfOk result (λ t. AreFirst seats (numbers t.1)) }
    ensures seen { IfOk result (λ t. (view t.1).seen ≡ []) }
    ensures made { IfOk result (λ t. M.made (first_machine t.0) ≡ M.made machine) }
    ensures told { IfOk result (λ t. seats_of t.0 ≡ seats) }
    ensures back { IfErr result (λ e. e.1 ≡ machine) }
{
    let numbers = first_numbers(seats);
    let setup = Setup {
        machine: Snapshot::of(&machine),
        seats: seats as u64,
        numbers,
    };
    let mut slots = match Vec::with_capacity(alloc, 1) {
        Ok(slots) => slots,
        Err(e) => return Err((e, machine)),
    };
    slots.push(Some(machine)).unwrap();
    let made = Table::new(alloc, &[0, 0], slots, &setup);
    match made {
        Ok((table, seat)) => Ok((Turn { table, seats }, Pass { seat, numbers })),
        Err(refused) => {
            let mut slots = refused.slots;
            let back = slots.pop().unwrap().unwrap();
            slots.destroy_empty();
            Err((AllocError, back))
        }
    }
}
