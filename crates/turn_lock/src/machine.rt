//! What a turn is put round: a machine that answers calls and keeps a journal of what they did.

ghost use Rattle.std.specs.Prelude.{◌≡◌, ◌<◌, ◌^◌, List, Option, length};

/// A machine that one worker at a time may call (ours).
///
/// Contracts know a machine by its meanings alone. What it was made with never changes. Its journal is a list of entries that only grows, by
/// one entry a call or by none. Which calls it takes, and what each may answer and enter, are relations; so a machine may answer in more than
/// one way, and say that it had no memory.
pub trait Machine {
    ghost use Rattle.turn_lock.specs.Histories.{with_entry};

    /// What it can be asked.
    type Call;

    /// What it answers.
    type Answer;

    /// One thing that it did.
    type Entry;

    /// What it was made with. A turn makes no value of it.
    type Made;

    /// What this machine was made with.
    ghost made: { Self → Self.Made };

    /// All that it has done, the oldest first.
    ghost journal: { Self → List Self.Entry };

    /// The calls that may be made.
    ghost takes: { Self.Made → Self.Call → Type 0 };

    /// That after this journal this call may be answered so, with this new entry or none.
    ghost plays: { Self.Made → List Self.Entry → Self.Call → Self.Answer → Option Self.Entry → Type 0 };

    /// How many entries the journal has.
    fn entries(&self) -> u64
        ensures { result ≡ length (journal self.now) };

    /// Answers one call, which adds an entry to the journal or none. The journal never has more entries than a `u64` counts.
    fn play(&mut self, call: Self::Call) -> Self::Answer
        requires { takes (made self.old) call }
        ensures few { length (journal self.new) < 2 ^ 64 }
        ensures same { made self.new ≡ made self.old }
        ensures played { (e : Option Self.Entry) × plays (made self.old) (journal self.old) call result e × (journal self.new ≡ with_entry (journal self.old) e) };
}
