//! What a run asks of a replica.
ghost use Rattle.std.specs.Prelude.{◌≡◌, Bool, List, [], false, not, ◌&&◌, length, IfOk};
ghost use Rattle.run_words.specs.Journal.{Maker, moves};
ghost use Rattle.run_words.specs.Acts.{IsFor, Acted, StaysOpen, IsTraceBut};
ghost use Rattle.run_words.specs.Runs.{trace_of};
ghost use Rattle.run_words.specs.declared.logs.Entry.{Entry};

use crate::logs::{Origin, Parcels, Trace};
use crate::movers::Mover;
use bft_verify::Verified;
use fab_base::{Answer, NoMemory};

/// What a party is told to do.
#[derive(Debug, Drop)]
pub enum Act {
    /// Hear a message, which is sound for the party's members and keys.
    Hear(Origin, Verified),
    /// Propose a full batch.
    Batch,
    /// Propose what there is.
    Nudge,
    /// Send the first item that waits.
    Emit,
    /// Execute the next round.
    Execute,
    /// Put a Checkpoint that is due, or else move the low mark.
    Checkpoint,
    /// A timeout.
    Timeout,
}

/// What a party answers.
#[derive(Debug, Drop)]
pub enum Told {
    /// What its machine answers, of any act but Emit; of Emit that nothing waits.
    Core(Answer),
    /// An item was sent, by these parcels.
    Out(Parcels),
    /// Nothing was sent: the first item is to be signed, and no leaf of the key is left. The item waits on.
    KeySpent {
        /// How many leaves were used: all.
        used: u32,
    },
    /// Memory was refused, now or before, and no entry was made.
    NoMemory,
}

/// A replica in a run: whatever keeps a journal and moves by it. An implementation may send otherwise than a correct replica does;
/// what it sends is fixed by what it was made with.
///
/// Where memory is refused in the middle of an act, the party is shut: from then on it answers `NoMemory` to every act, and moves
/// nothing. Emit takes its memory before it signs, so it leaves a party open.
pub trait Party: Drop {
    // What it was made with. No call changes it.
    ghost made: { Self → Maker };

    // Its entries so far.
    ghost journal: { Self → List Entry };

    // Whether it is shut.
    ghost shut: { Self → Bool };

    /// The number of its entries. Takes no memory.
    fn entries(&self) -> u64
        ensures { result ≡ length (journal self.now) };

    /// Whether it is shut: memory was refused in the middle of an act, and each later act answers so. Takes no memory.
    fn is_shut(&self) -> bool
        ensures { result ≡ shut self.now };

    /// Whether an act would make an entry, want of memory aside: never where the party is shut. Takes no memory.
    fn moves(&self, mover: Mover) -> bool
        ensures { result ≡ (not (shut self.now) && moves (made self.now) (journal self.now) mover) };

    /// One act: the machine's step on the journal (`acted`), with its answer, or with the parcels that a new entry puts. Where
    /// memory is refused the journal stays. Whatever else is answered, the party was open and stays so (`open`).
    fn act(&mut self, act: Act) -> Told
        requires { IsFor (made self.old) act }
        ensures made { made self.new ≡ made self.old }
        ensures acted { Acted (made self.old) (journal self.old) act result (journal self.new) }
        ensures open { StaysOpen act result (shut self.old) (shut self.new) };

    /// What it leaves behind: the trace of its journal, with nothing refused. Of a party that is shut the number of items that wait
    /// isn't told.
    fn trace(self) -> Result<Trace, NoMemory>
    where
        Self: Sized,
        ensures open { shut self ≡ false → IfOk result (λ trace. trace ≡ trace_of (made self) (journal self) []) }
        ensures shut { IfOk result (λ trace. IsTraceBut (made self) (journal self) trace) };
}
