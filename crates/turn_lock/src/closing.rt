//! The end of a turn.

ghost use Rattle.std.specs.Prelude.{◌≡◌};
ghost use Rattle.turn_lock.specs.Numbers.{HasAll};
ghost use Rattle.turn_lock.specs.Histories.{Legal, entries};
ghost use Rattle.turn_lock.specs.Views.{own};
ghost use Rattle.turn_lock.specs.Passes.{view, numbers, seats, first_machine, IsPassOf};

use crate::lock::{Pass, Turn};
use crate::machine::Machine;

impl<M: Machine> Turn<M> {
    /// Takes the turn apart and gives the machine, once all passes were joined into one. Its journal is the one history, without the seats:
    /// just the entries that stand among the pass's own, each once and in their order, and a legal history of the machine that was handed in.
    pub fn close(self, pass: Pass<M>) -> M
        requires pass { IsPassOf M.plays M.made self pass }
        requires every { HasAll (seats self) (numbers pass) }
        ensures journal { M.journal result ≡ entries (view pass).seen }
        ensures own { (view pass).seen ≡ own (view pass) }
        ensures legal { Legal M.plays (M.made (first_machine self)) (seats self) (view pass).seen }
        ensures made { M.made result ≡ M.made (first_machine self) }
    {
        let Turn { table, seats: _ } = self;
        let Pass { seat, numbers: _ } = pass;
        let mut closed = table.close_with(seat);
        match closed.take(0) {
            Some(machine) => {
                closed.free();
                machine
            }
            None => unreachable!(),
        }
    }
}
