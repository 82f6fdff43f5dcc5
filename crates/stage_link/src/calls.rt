//! Putting and taking, and how producers come and go.

ghost use Rattle.std.specs.Prelude.{◌≡◌, ℕ, ◌<◌, [], ◌∷◌, ◌++◌, length, true, false, IfOk, IsOk, OnOk, IfErr, IfSome, IsNone, List};
ghost use Rattle.stage_link.specs.Producers.{producer, with_put, with_producer, with_joined, Took, TookStarts, TookAll};
ghost use Rattle.stage_link.specs.Queues.{known, room, IsQueuePass};

use crate::full::Full;
use crate::queue::{QueuePass, StageQueue};
use crate::rule::{Parting, Puts, Takes};
use std::alloc::AllocError;
use std::sync::Wait;

impl<T> StageQueue<T> {
    /// Puts an item, by a producer's pass. `Full` comes only where the queue held as many items as it has room for, at one moment of this call;
    /// it hands the item back, and the pass is as it was. It may wait for another worker that is in the midst of a step.
    pub fn put<R: Wait>(&self, rt: &R, pass: &mut QueuePass<T>, item: T) -> Result<(), Full<T>>
        requires pass { IsQueuePass self.now pass.old }
        requires puts { (known pass.old).puts ≡ true }
        ensures pass { IsQueuePass self.now pass.new }
        ensures put { OnOk result (known pass.new ≡ with_put (known pass.old) item) }
        ensures back { IfErr result (λ full. (full.item ≡ item) × (known pass.new ≡ known pass.old)) }
        ensures full { IfErr result (λ full. (items : List T) × (length items ≡ room self.now)) }
    {
        match self.inner.push_as::<Puts, R>(rt, pass, item) {
            Ok(()) => Ok(()),
            Err(item) => Err(Full { item }),
        }
    }

    /// Takes the oldest item, by the consumer's pass. None where the queue was empty at one moment of this call: then all that the joined
    /// producers put was taken. It may wait for another worker that is in the midst of a step.
    pub fn take<R: Wait>(&self, rt: &R, pass: &mut QueuePass<T>) -> Option<T>
        requires pass { IsQueuePass self.now pass.old }
        requires takes { (known pass.old).takes ≡ true }
        ensures pass { IsQueuePass self.now pass.new }
        ensures took { IfSome result (λ item. Took (known pass.old) item (known pass.new)) }
        ensures none { IsNone result → known pass.new ≡ known pass.old }
        ensures all { IsNone result → TookAll (known pass.new) }
    {
        self.inner.pop_as::<Takes, R>(rt, pass)
    }

    /// Splits a new producer off the consumer's pass. It has put nothing, and its number is that of no pass before it. No memory is taken, and it
    /// always succeeds.
    pub fn split_pass(&self, pass: &mut QueuePass<T>) -> Result<QueuePass<T>, AllocError>
        requires pass { IsQueuePass self.now pass.old }
        requires takes { (known pass.old).takes ≡ true }
        ensures pass { IsQueuePass self.now pass.new }
        ensures counted { known pass.new ≡ with_producer (known pass.old) }
        ensures new { IfOk result (λ made. IsQueuePass self.now made) }
        ensures producer { IfOk result (λ made. known made ≡ producer (known pass.old).made) }
        ensures succeeds { IsOk result }
    {
        Ok(self.inner.another::<Parting>(pass))
    }

    /// Joins a producer's pass into the consumer's, which knows from then on what that producer put: what it took of it is a beginning of this.
    pub fn join_pass(&self, pass: &mut QueuePass<T>, other: QueuePass<T>)
        requires pass { IsQueuePass self.now pass.old }
        requires takes { (known pass.old).takes ≡ true }
        requires other { IsQueuePass self.now other }
        requires puts { (known other).puts ≡ true }
        ensures pass { IsQueuePass self.now pass.new }
        ensures joined { known pass.new ≡ with_joined (known pass.old) (known other) }
        ensures starts { TookStarts (known pass.new) }
    {
        self.inner.absorb::<Parting>(pass, other);
        self.inner.learn_as::<Parting>(pass);
    }
}
