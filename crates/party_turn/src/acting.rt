//! A party that acts under a turn.

ghost use Rattle.std.specs.Prelude.{◌≡◌, [], true, IfOk, IsErr};
ghost use Rattle.run_words.specs.Runs.{trace_of};
ghost use Rattle.party_turn.specs.Playing.{Actor, first_of, IsSoundAct};

use crate::answered::Answered;
use fab_base::NoMemory;
use run_words::{Act, Entry, Party, Trace};
use std::marker::Model;
use std::snapshot::Snapshot;
use turn_lock::Machine;

/// A party that acts under a turn, and remembers what it was made with.
///
/// Contracts see the party (`party`) and the party as it was handed in (`first`), which was made with the same.
#[derive(Drop)]
pub struct Acting<P: Party> {
    party: P,
    first: Snapshot<P>,
}

impl<P: Party> Model for Acting<P> {
    ghost use Rattle.std.specs.Prelude.{◌≡◌};
    ghost use Rattle.party_turn.specs.Playing.{Actor};

    ghost Value = { Actor P };

    ghost view = { λ a. record { party = a.party; first = a.first.value } };

    ghost invariant = { λ a. P.made a.party ≡ P.made a.first.value };
}

impl<P: Party> Acting<P> {
    /// A party that acts under a turn, as it is. Takes no memory.
    pub fn new(party: P) -> Acting<P>
        ensures { result ≡ first_of party }
    {
        Acting {
            first: Snapshot::of(&party),
            party,
        }
    }

    /// The trace of the party's journal, with nothing refused. It fails where memory is refused, and always where it was refused in the
    /// middle of an act: of such a party the number of items that wait isn't told.
    pub(crate) fn into_trace(self) -> Result<Trace, NoMemory>
        ensures trace { IfOk result (λ trace. trace ≡ trace_of (P.made self.first) (P.journal self.party) []) }
        ensures shut { P.shut self.party ≡ true → IsErr result }
    {
        if self.party.is_shut() {
            drop(self.party);
            return Err(NoMemory);
        }
        self.party.trace()
    }
}

/// Reads the message that is heard, which is sound for the members and keys that it was verified with.
fn see_sound(act: &Act)
    ensures { IsSoundAct act.now }
{
    match act {
        Act::Hear(_, heard) => {
            let _message = heard.message();
        }
        _ => {}
    }
}

impl<P: Party> Machine for Acting<P> {
    ghost use Rattle.run_words.specs.Acts.{IsFor};
    ghost use Rattle.party_turn.specs.Playing.{Plays};

    type Call = Act;

    type Answer = Answered;

    type Entry = Entry;

    type Made = P;

    ghost made = { λ a. a.first };

    ghost journal = { λ a. P.journal a.party };

    ghost takes = { λ first act. IsFor (P.made first) act };

    ghost plays = { λ first. Plays (P.made first) };

    fn entries(&self) -> u64 {
        self.party.entries()
    }

    fn play(&mut self, act: Act) -> Answered {
        see_sound(&act);
        let told = self.party.act(act);
        let entries = self.party.entries();
        Answered { told, entries }
    }
}
