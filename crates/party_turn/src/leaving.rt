//! The end of a turn round a party.

ghost use Rattle.std.specs.Prelude.{◌≡◌, [], IfOk};
ghost use Rattle.turn_lock.specs.Numbers.{HasAll};
ghost use Rattle.turn_lock.specs.Histories.{entries};
ghost use Rattle.turn_lock.specs.Passes.{view, numbers, seats, first_machine};
ghost use Rattle.run_words.specs.Runs.{trace_of};
ghost use Rattle.run_words.specs.Lawful.{Kept};
ghost use Rattle.party_turn.specs.Turns.{IsPartyPass};

use crate::acting::Acting;
use fab_base::NoMemory;
use run_words::{Party, Trace};
use turn_lock::{Pass, Turn};

/// Closes a turn whose passes were all joined into one: the trace of its one history, with nothing refused, which is one that a replica may
/// keep. It fails where memory is refused, and where it was refused in the middle of an act: the party is then shut.
pub fn leave<P: Party>(turn: Turn<Acting<P>>, pass: Pass<Acting<P>>) -> Result<Trace, NoMemory>
    requires pass { IsPartyPass P.made turn pass }
    requires every { HasAll (seats turn) (numbers pass) }
    ensures trace { IfOk result (λ trace. trace ≡ trace_of (P.made (first_machine turn).first) (entries (view pass).seen) []) }
    ensures kept { IfOk result (λ trace. Kept (P.made (first_machine turn).first) trace) }
{
    turn.close(pass).into_trace()
}
