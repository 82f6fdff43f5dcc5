//! Whole batches, whose memory is taken before anything changes.
ghost use Rattle.std.specs.Prelude.{◌≡◌, ◌<◌, ℕ, List, true, length, All, IfOk, OnOk, OnErr};
ghost use Rattle.std.specs.Map.{keys_of};
ghost use Rattle.fab_base.specs.Table.{outcome_of, outcomes_of, state_after, state_after_all};
ghost use Rattle.seq_table.specs.Holding.{state_of, is_held, WritesShort};
ghost use Rattle.seq_table.specs.Batches.{value_written, values_written, held_for_all, HoldsFor};

use super::Table;
use crate::room::{Place, Room};
use fab_base::{Batch, NoMemory, Outcome, Outcomes, Request};

impl Table {
    /// Takes all the memory that `apply_batch` needs for a batch, and holds each key that the batch may write: one that wasn't held
    /// joins the others, with no value. The state stays as it was.
    ///
    /// It fails only where memory is refused, and then no key stays behind.
    pub fn reserve(&mut self, batch: &Batch) -> Result<Room, NoMemory>
        ensures room { IfOk result (λ room. room ≡ values_written batch.now) }
        ensures holds { OnOk result (All (λ r. HoldsFor (keys_of self.new.held) r.op) batch.now) }
        ensures held { OnOk result (self.new.held ≡ held_for_all self.old.held batch.now) }
        ensures keeps { (key : List ℕ) → is_held (keys_of self.old.held) key ≡ true → is_held (keys_of self.new.held) key ≡ true }
        ensures state { state_of self.new ≡ state_of self.old }
        ensures err { OnErr result (self.new ≡ self.old) }
    {
        let room = Room::new(*self.stamps.allocator(), batch)?;
        let before = self.held.len();
        match self.held.hold_for_all(batch) {
            Ok(()) => Ok(room),
            Err(refused) => {
                self.held.truncate(before);
                Err(refused)
            }
        }
    }

    /// Applies the requests of a batch one after another, as `apply` would, in the memory that `reserve` took for this batch. It takes
    /// no memory and can't fail. Between the two calls other batches may have been reserved and applied.
    pub fn apply_batch(&mut self, batch: &Batch, room: Room) -> Outcomes
        requires clients { All (λ r. r.client.number < length self.old.stamps) batch.now }
        requires short { All (λ r. WritesShort r.op) batch.now }
        requires room { room ≡ values_written batch.now }
        requires held { All (λ r. HoldsFor (keys_of self.old.held) r.op) batch.now }
        ensures outcomes { result ≡ outcomes_of (state_of self.old) batch.now }
        ensures state { state_of self.new ≡ state_after_all (state_of self.old) batch.now }
        ensures keys { keys_of self.new.held ≡ keys_of self.old.held }
        ensures clients { length self.new.stamps ≡ length self.old.stamps }
    {
        let (mut places, mut outcomes) = room.into_parts();
        for request in batch.as_slice() {
            let place = places.pop_front().unwrap();
            outcomes.push(self.apply_in(request, place)).unwrap();
        }
        Outcomes::from_vec(outcomes)
    }

    /// Runs a batch: applies its requests one after another, as `apply` would, and answers what they come to. It is `reserve` and
    /// `apply_batch` in one call, for a caller that has nothing else to make ready in between. Afterwards the keys that the batch may
    /// write are held, as `reserve` holds them.
    ///
    /// It fails only where memory is refused, which is before the first request: then nothing has changed.
    pub fn run(&mut self, batch: &Batch) -> Result<Outcomes, NoMemory>
        requires clients { All (λ r. r.client.number < length self.old.stamps) batch.now }
        requires short { All (λ r. WritesShort r.op) batch.now }
        ensures outcomes { IfOk result (λ outcomes. outcomes ≡ outcomes_of (state_of self.old) batch.now) }
        ensures state { OnOk result (state_of self.new ≡ state_after_all (state_of self.old) batch.now) }
        ensures keys { OnOk result (keys_of self.new.held ≡ keys_of (held_for_all self.old.held batch.now)) }
        ensures clients { length self.new.stamps ≡ length self.old.stamps }
        ensures err { OnErr result (self.new ≡ self.old) }
    {
        let room = self.reserve(batch)?;
        Ok(self.apply_batch(batch, room))
    }

    /// Applies a request in the memory that was taken for it.
    fn apply_in(&mut self, request: &Request, place: Place) -> Outcome
        requires client { request.now.client.number < length self.old.stamps }
        requires short { WritesShort request.now.op }
        requires held { HoldsFor (keys_of self.old.held) request.now.op }
        requires place { place ≡ value_written request.now.op }
        ensures outcome { result ≡ outcome_of (state_of self.old) request.now }
        ensures state { state_of self.new ≡ state_after (state_of self.old) request.now }
        ensures keys { keys_of self.new.held ≡ keys_of self.old.held }
        ensures clients { length self.new.stamps ≡ length self.old.stamps }
    {
        if let Some(refused) = self.refusal(request) {
            return refused;
        }
        let reply = self.held.apply_in(&request.op, place);
        self.stamps[usize::from(request.client.number)] = request.stamp;
        Outcome::Done(reply)
    }
}
