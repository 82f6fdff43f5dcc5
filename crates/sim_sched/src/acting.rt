//! Events at one seat.
ghost use Rattle.std.specs.Prelude.{◌≡◌, ℕ, ◌+◌, ◌<◌, ◌≤◌, Bool, true, false, length, IfOk, slice_index_or};
ghost use Rattle.run_words.specs.Acts as acts;
ghost use Rattle.run_words.specs.Journal as journals;
ghost use Rattle.run_words.specs.Runs.{Step};
ghost use Rattle.run_words.specs.declared.logs.Pending.{Pending};
ghost use Rattle.fab_machine.specs.Step as machine;
ghost use Rattle.copy_reader.specs.Reading.{IsMadeWith};
ghost use Rattle.sim_sched.specs.Seats.{seen, can, seat_steps, seat_given, parcels_given, seat_heard, is_read, with_turned};

use crate::seats::Seat;
use bft_verify::Refusal;
use copy_reader::Reader;
use fab_base::{Answer, NoMemory, Rows};
use run_words::{Act, Mover, Origin, Parcels, Party, Told, Turned};
use std::alloc::Global;

/// The act of an event.
fn act_of(mover: Mover) -> Act
    ensures { result ≡ acts.act_of mover }
{
    match mover {
        Mover::Batch => Act::Batch,
        Mover::Nudge => Act::Nudge,
        Mover::Emit => Act::Emit,
        Mover::Execute => Act::Execute,
        Mover::Checkpoint => Act::Checkpoint,
        Mover::Timeout => Act::Timeout,
    }
}

/// Whether a machine's answer is of an entry.
fn makes_entry(answer: &Answer) -> bool
    ensures { result ≡ machine.makes_entry answer.now }
{
    match answer {
        Answer::Heard(_)
        | Answer::Proposed { .. }
        | Answer::Sent(_)
        | Answer::Executed { .. }
        | Answer::Voted { .. }
        | Answer::Moved { .. }
        | Answer::Asked { .. }
        | Answer::Missed { .. } => true,
        _ => false,
    }
}

impl<P: Party> Seat<P> {
    /// One where an event would make an entry, else 0.
    fn weight(&self, mover: Mover) -> usize
        requires { P.shut self.now.party ≡ false }
        ensures number { result ≡ length (can (seen P.made P.journal P.shut self.now) mover) }
        ensures small { result ≤ 1 }
    {
        if self.party.moves(mover) { 1 } else { 0 }
    }

    /// How many steps this replica can make.
    pub(crate) fn count(&self) -> usize
        requires { P.shut self.now.party ≡ false }
        ensures { result ≡ length (seat_steps (seen P.made P.journal P.shut self.now)) }
    {
        self.way.len()
            + self.weight(Mover::Batch)
            + self.weight(Mover::Emit)
            + self.weight(Mover::Execute)
            + self.weight(Mover::Checkpoint)
    }

    /// Notes that a copy was refused: a parcel by its number; a request of a client isn't noted.
    fn note(&mut self, origin: Origin, number: u64, refusal: Refusal) -> Result<(), NoMemory>
        ensures { IfOk result (λ done. seen P.made P.journal P.shut self.new
            ≡ with_turned origin number refusal (seen P.made P.journal P.shut self.old)) }
    {
        if let Origin::Replica { from, .. } = origin {
            self.refused.push(Turned {
                from,
                parcel: number,
                refusal,
            })?;
        }
        Ok(())
    }

    /// Takes out the copy at a place, and hears it or notes that it is refused. Whether it was heard.
    pub(crate) fn hear(&mut self, place: usize, reader: &Reader) -> Result<bool, NoMemory>
        requires open { P.shut self.old.party ≡ false }
        requires there { place < length self.old.way.items }
        requires made { IsMadeWith reader.now.members.now reader.now.ring.now (P.made self.old.party) }
        ensures { IfOk result (λ heard. (c : Pending) → slice_index_or self.old.way.items place c ≡ c
            → (seen P.made P.journal P.shut self.new ≡ seat_heard place c (seen P.made P.journal P.shut self.old))
            × (heard ≡ is_read (journals.reads (P.made self.old.party) c.load))) }
    {
        let copy = self.way.remove(place);
        match reader.read(copy.load.as_slice())? {
            Ok(message) => match self.party.act(Act::Hear(copy.origin, message)) {
                Told::NoMemory => Err(NoMemory),
                told => {
                    drop(told);
                    Ok(true)
                }
            },
            Err(refusal) => {
                self.note(copy.origin, copy.number, refusal)?;
                Ok(false)
            }
        }
    }

    /// Gives an event. Whether an entry was made, and what was put.
    pub(crate) fn give(&mut self, alloc: Global, mover: Mover) -> Result<(bool, Parcels), NoMemory>
        requires { P.shut self.old.party ≡ false }
        ensures { IfOk result (λ told. (seen P.made P.journal P.shut self.new ≡ seat_given mover (seen P.made P.journal P.shut self.old))
            × (told.1 ≡ parcels_given mover (seen P.made P.journal P.shut self.old))
            × (told.0 ≡ journals.moves (P.made self.old.party) (P.journal self.old.party) mover)) }
    {
        match self.party.act(act_of(mover)) {
            Told::Core(answer) => {
                let entered = makes_entry(&answer);
                drop(answer);
                Ok((entered, Rows::new(alloc)))
            }
            Told::Out(parcels) => Ok((true, parcels)),
            Told::KeySpent { .. } => Ok((false, Rows::new(alloc))),
            Told::NoMemory => Err(NoMemory),
        }
    }
}
