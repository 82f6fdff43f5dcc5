//! The parcels of a whole journal.
ghost use Rattle.std.specs.Prelude.{◌≡◌, ◌++◌, OnOk, IfOk, IsTrue};
ghost use Rattle.fab_rules.specs.Format.{fits};
ghost use Rattle.fab_rules.specs.Spelling.{spelling_of};
ghost use Rattle.run_words.specs.Journal as journals;
ghost use Rattle.run_words.specs.Journal.{Maker};
ghost use Rattle.parcel_post.specs.Posting.{numbered, raised_by, SendsPlainly, AreSpelled, IsSpelled};
ghost use Rattle.parcel_post.specs.Walking.{walked};

use crate::clock::ticked;
use crate::numbering::Numbers;
use crate::posting::prepare;
use bft_msg::encode;
use fab_base::{Item, NoMemory};
use run_words::{Entry, Parcels};
use std::alloc::Global;

/// What was put so far, with the clock and the numbers.
#[derive(Drop)]
struct Walk {
    clock: u64,
    numbers: Numbers,
    parcels: Parcels,
}

impl Walk {
    /// Puts the parcels of an item, which has a spelling.
    fn put(&mut self, alloc: Global, item: &Item) -> Result<(), NoMemory>
        requires { IsTrue (fits item.now.message) }
        ensures clock { self.new.clock ≡ self.old.clock }
        ensures numbers { OnOk result (self.new.numbers ≡ raised_by self.old.numbers item.now.to) }
        ensures parcels { OnOk result (self.new.parcels ≡ self.old.parcels ++ numbered self.old.numbers self.old.clock (spelling_of item.now.message) item.now.to) }
    {
        let bytes = encode(alloc, &item.message)?;
        let prepared = prepare(
            alloc,
            &self.numbers,
            self.clock,
            bytes.as_slice(),
            0,
            item.to.as_slice(),
        )?;
        let mut sent = prepared.send(&mut self.numbers, &[]);
        self.parcels.append(&mut sent)?;
        Ok(())
    }

    /// Goes on by an entry.
    fn step(&mut self, alloc: Global, entry: &Entry) -> Result<(), NoMemory>
        requires { IsSpelled entry.now }
        ensures { OnOk result (self.new ≡ walked self.old entry.now) }
    {
        match entry {
            Entry::Heard(origin, _) => self.clock = ticked(self.clock, *origin)?,
            Entry::Sent(item) => self.put(alloc, item)?,
            Entry::Proposed | Entry::Nudged | Entry::Executed | Entry::Marked | Entry::TimedOut =>
                {}
        }
        Ok(())
    }
}

/// The parcels that a replica with this journal put, in the order in which it put them: for each item that it sent, whose message has a
/// spelling, a copy for each receiver, numbered for each receiver from 0 (ours), at the time of the replica's clock (Lamport's rule). Nothing
/// is lost or repeated, and the replica sends as a correct one does; beyond that they depend on the journal alone, and not on what the replica
/// was made with. It fails only where memory is refused, where 2^64 - 1 parcels were put to a receiver, or where a parcel was heard whose time
/// is 2^64 - 1, the last value of a `u64`.
pub fn parcels_of(alloc: Global, journal: &[Entry]) -> Result<Parcels, NoMemory>
    requires { AreSpelled journal.now }
    ensures { IfOk result (λ parcels. (m : Maker) → SendsPlainly m → parcels ≡ journals.parcels_of m journal.now) }
{
    let mut walk = Walk {
        clock: 0,
        numbers: Numbers::new(alloc),
        parcels: Parcels::new(alloc),
    };
    for entry in journal {
        walk.step(alloc, entry)?;
    }
    Ok(walk.parcels)
}
