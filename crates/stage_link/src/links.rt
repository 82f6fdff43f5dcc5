//! A link: one worker pushes items in at one end, another pops them at the other, in their order and each once.

ghost use Rattle.std.specs.Prelude.{◌≡◌, ℕ, ◌<◌, ◌≤◌, [], ◌∷◌, ◌++◌, length, IfOk, OnOk, IfErr, IfSome, IsSome, IsNone, IsOk};
ghost use mathlib.Core.List.{IsPrefix};
ghost use Rattle.stage_link.specs.Links.{pushed, popped, waiting, free, AreEnds, IsSameIn, IsSameOut};

use crate::full::Full;
use rtrb::{Consumer, Producer, PushError, RingBuffer};
use std::alloc::{AllocError, Global};

/// The end of a link at which items are pushed. One worker owns it.
///
/// Contracts see all that was pushed (`pushed`), and how many places it knows to be free (`free`).
#[derive(Drop)]
pub struct LinkIn<T> {
    pub(crate) end: Producer<T, Global>,
}

/// The end of a link at which items are popped. One worker owns it.
///
/// Contracts see all that was popped (`popped`), and what it knows to wait (`waiting`), which the next pops give.
#[derive(Drop)]
pub struct LinkOut<T> {
    pub(crate) end: Consumer<T, Global>,
}

/// Makes a link with room for so many items, and gives its two ends. It fails for want of memory alone.
pub fn link<T: Drop>(alloc: Global, room: usize) -> Result<(LinkIn<T>, LinkOut<T>), AllocError>
    requires { 0 < room }
    ensures ends { IfOk result (λ ends. AreEnds ends.0 ends.1) }
    ensures empty { IfOk result (λ ends. (pushed ends.0 ≡ []) × (popped ends.1 ≡ []) × (waiting ends.1 ≡ [])) }
    ensures room { IfOk result (λ ends. free ends.0 ≡ room) }
{
    let (sent, got) = RingBuffer::new(alloc, room)?;
    Ok((LinkIn { end: sent }, LinkOut { end: got }))
}

/// How many items wait in a link, seen by who has both its ends: what was popped and then what waits is what was pushed.
pub fn beside<T>(sent: &mut LinkIn<T>, got: &mut LinkOut<T>) -> usize
    requires { AreEnds sent.old got.old }
    ensures ends { AreEnds sent.new got.new }
    ensures same { IsSameIn sent.old sent.new × IsSameOut got.old got.new }
    ensures stays { (pushed sent.new ≡ pushed sent.old) × (popped got.new ≡ popped got.old) }
    ensures waits { popped got.new ++ waiting got.new ≡ pushed sent.new }
    ensures count { result ≡ length (waiting got.new) }
{
    got.end.slots_beside(&mut sent.end)
}

impl<T> LinkIn<T> {
    /// Pushes an item. `Full` comes only where this end knows of no free place; it hands the item back, and nothing was pushed.
    pub fn push(&mut self, item: T) -> Result<(), Full<T>>
        ensures same { IsSameIn self.old self.new }
        ensures pushed { OnOk result (pushed self.new ≡ pushed self.old ++ item ∷ []) }
        ensures back { IfErr result (λ full. (full.item ≡ item) × (pushed self.new ≡ pushed self.old)) }
        ensures full { IfErr result (λ full. free self.new ≡ 0) }
        ensures succeeds { 0 < free self.old → IsOk result }
    {
        match self.end.push(item) {
            Ok(()) => Ok(()),
            Err(PushError::Full(item)) => Err(Full { item }),
        }
    }
}

impl<T> LinkOut<T> {
    /// Pops the oldest item that was pushed and not yet popped. None where the link was empty at one moment.
    pub fn pop(&mut self) -> Option<T>
        ensures same { IsSameOut self.old self.new }
        ensures popped { IfSome result (λ item. popped self.new ≡ popped self.old ++ item ∷ []) }
        ensures order { IfSome result (λ item. IsPrefix (waiting self.old) (item ∷ waiting self.new)) }
        ensures none { IsNone result → (popped self.new ≡ popped self.old) × (waiting self.new ≡ []) }
        ensures next { 0 < length (waiting self.old) → IsSome result }
    {
        self.end.pop().ok()
    }
}
