//! An input worker.

ghost use Rattle.std.specs.Prelude.{◌≡◌, ◌++◌, ◌∷◌, [], List, OnOk, OnErr, None, true};
ghost use Rattle.fab_base.specs.Limits.{Roster};
ghost use Rattle.bft_verify.specs.Ring as rings;
ghost use Rattle.stage_link.specs.Queues.{known, IsQueuePass};
ghost use Rattle.stage_link.specs.declared.queue.StageQueue as queues;
ghost use Rattle.run_words.specs.Runs.{turned_by};
ghost use Rattle.run_words.specs.declared.logs.Pending as pendings;
ghost use Rattle.stage_workers.specs.declared.look.Look.TheVariants.{Idle};
ghost use Rattle.stage_looks.specs.Feeding.{IsFeeder, FitsInput, IsFree, IsToldOf, IsHandedOn, IsSameProducer};
ghost use Rattle.stage_looks.specs.declared.items.Item as items;

use crate::items::Item;
use bft_verify::Refusal;
use copy_reader::Reader;
use crossbeam_utils::Backoff;
use fab_base::NoMemory;
use run_words::{Origin, Pending, Turned, TurnedList};
use stage_link::{Full, QueuePass, StageQueue};
use stage_workers::Look;
use std::alloc::Global;
use std::sync::Wait;

/// What an input worker owns, beside the links that it pops.
#[derive(Drop)]
pub struct InputHand {
    /// A producer's pass of the stage queue.
    pub put: QueuePass<Item>,
    /// An item that it read and has still to put.
    pub held: Option<Item>,
    /// A copy for which memory was refused, to be read again.
    pub kept: Option<Pending>,
    /// The parcels that it refused, in order.
    pub refused: TurnedList,
}

impl InputHand {
    /// A hand that has taken, put and refused nothing yet. Its pass is a producer's that has put nothing. Takes no memory.
    pub fn new(alloc: Global, put: QueuePass<Item>) -> InputHand
        requires none { (known put).put ≡ [] }
        ensures fits { (queue : queues.StageQueue items.Item) → IsQueuePass queue put → (known put).puts ≡ true → FitsInput queue result }
        ensures feeds { (members : Roster) (ring : rings.Ring) → IsFeeder members ring [] result }
        ensures is { (result.put ≡ put) × (result.held ≡ None) × (result.kept ≡ None) × (result.refused ≡ []) }
    {
        InputHand {
            put,
            held: None,
            kept: None,
            refused: TurnedList::new(alloc),
        }
    }

    /// Notes that a copy was refused: a parcel by its number; a request of a client isn't noted.
    fn note(&mut self, origin: Origin, number: u64, refusal: Refusal) -> Result<(), NoMemory>
        ensures ok { OnOk result (self.new.refused ≡ self.old.refused ++ turned_by number refusal origin) }
        ensures err { OnErr result (self.new.refused ≡ self.old.refused) }
        ensures same { (self.new.put ≡ self.old.put) × (self.new.held ≡ self.old.held) × (self.new.kept ≡ self.old.kept) }
    {
        if let Origin::Replica { from, .. } = origin {
            self.refused.push(Turned {
                from,
                parcel: number,
                refusal,
            })?;
        }
        Ok(())
    }
}

impl InputHand {
    /// Reads a copy: what is sound is held, what isn't is refused, and where memory is refused the copy is kept.
    fn read_in(&mut self, reader: &Reader<'_>, copy: Pending) -> Look
        requires free { IsFree self.old }
        ensures feeds { (popped : List pendings.Pending) → IsFeeder reader.now.members.now reader.now.ring.now popped self.old → IsFeeder reader.now.members.now reader.now.ring.now (popped ++ copy ∷ []) self.new }
        ensures same { self.new.put ≡ self.old.put }
        ensures told { IsToldOf copy result self.new }
    {
        match reader.read(copy.load.as_slice()) {
            Ok(Ok(heard)) => {
                self.held = Some(Item {
                    origin: copy.origin,
                    heard,
                });
                Look::Moved
            }
            Ok(Err(refusal)) => match self.note(copy.origin, copy.number, refusal) {
                Ok(()) => Look::Moved,
                Err(NoMemory) => {
                    self.kept = Some(copy);
                    Look::NoMemory
                }
            },
            Err(NoMemory) => {
                self.kept = Some(copy);
                Look::NoMemory
            }
        }
    }

    /// Takes a copy that was popped, and reads it outside the turn: what is sound is held, to be put; what isn't is refused, a parcel by its number;
    /// and where memory is refused the copy is kept, and `NoMemory` is answered.
    pub fn take_in(&mut self, queue: &StageQueue<Item>, reader: &Reader<'_>, copy: Pending) -> Look
        requires free { IsFree self.old }
        requires fits { FitsInput queue.now self.old }
        ensures fits { FitsInput queue.now self.new }
        ensures feeds { (popped : List pendings.Pending) → IsFeeder reader.now.members.now reader.now.ring.now popped self.old → IsFeeder reader.now.members.now reader.now.ring.now (popped ++ copy ∷ []) self.new }
        ensures same { self.new.put ≡ self.old.put }
        ensures told { IsToldOf copy result self.new }
    {
        let _ = queue;
        self.read_in(reader, copy)
    }

    /// Puts the item that is held. Where the queue is full it is held on, after a moment's rest.
    fn hand_on<R: Wait>(&mut self, rt: &R, queue: &StageQueue<Item>, item: Item)
        requires fits { FitsInput queue.now self.old }
        requires none { self.old.held ≡ None }
        ensures fits { FitsInput queue.now self.new }
        ensures put { IsHandedOn self.old item self.new }
        ensures others { (self.new.kept ≡ self.old.kept) × (self.new.refused ≡ self.old.refused) }
        ensures same { IsSameProducer self.old self.new }
    {
        if let Err(Full { item }) = queue.put(rt, &mut self.put, item) {
            self.held = Some(item);
            Backoff::new().snooze();
        }
    }

    /// One look: it puts the item that it holds, or else reads again the copy that it kept.
    ///
    /// `Idle` comes where it has neither: then it may take another copy. `NoMemory` comes where memory was refused again, and the copy is kept on.
    /// Where the queue is full it keeps the item, rests for a moment, and answers `Moved`.
    pub fn look<R: Wait>(&mut self, rt: &R, queue: &StageQueue<Item>, reader: &Reader<'_>) -> Look
        requires fits { FitsInput queue.now self.old }
        ensures fits { FitsInput queue.now self.new }
        ensures feeds { (popped : List pendings.Pending) → IsFeeder reader.now.members.now reader.now.ring.now popped self.old → IsFeeder reader.now.members.now reader.now.ring.now popped self.new }
        ensures same { IsSameProducer self.old self.new }
        ensures idle { result ≡ Idle → IsFree self.new }
    {
        if let Some(item) = self.held.take() {
            self.hand_on(rt, queue, item);
            return Look::Moved;
        }
        match self.kept.take() {
            Some(copy) => self.read_in(reader, copy),
            None => Look::Idle,
        }
    }
}
