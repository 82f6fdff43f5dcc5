//! The order worker.

ghost use Rattle.std.specs.Prelude.{◌≡◌, ◌≢◌, [], ◌∷◌, true, false, None, IfSome, IsNone};
ghost use Rattle.turn_lock.specs.Views.{own};
ghost use Rattle.turn_lock.specs.Passes.{view, numbers};
ghost use Rattle.stage_link.specs.Queues.{known, IsQueuePass};
ghost use Rattle.stage_link.specs.declared.queue.StageQueue as queues;
ghost use Rattle.party_turn.specs.Turns.{PartyTurn, IsPartyPass};
ghost use Rattle.stage_workers.specs.declared.look.Look.TheVariants.{Idle, NoMemory as NoMemoryLook};
ghost use Rattle.stage_looks.specs.Items.{entry_of};
ghost use Rattle.stage_looks.specs.Ordering.{Holds, FitsOrder, AreOfParty, IsSameOrder};
ghost use Rattle.stage_looks.specs.declared.items.Item as items;

use crate::hearing::{Heard, hear};
use crate::items::Item;
use copy_reader::Reader;
use crossbeam_utils::Backoff;
use party_turn::Acting;
use run_words::Party;
use stage_link::{QueuePass, StageQueue};
use stage_workers::Look;
use std::sync::Wait;
use turn_lock::{Pass, Turn};

/// What the order worker owns.
#[derive(Drop)]
pub struct OrderHand<P: Party> {
    /// The consumer's pass of the stage queue.
    pub take: QueuePass<Item>,
    /// Its pass of the turn.
    pub act: Pass<Acting<P>>,
    /// An item that it took and has still to hear.
    pub held: Option<Item>,
    /// Whether an item was lost. It then hears nothing more.
    pub lost: bool,
}

impl<P: Party> OrderHand<P> {
    /// A hand that has taken and heard nothing yet. Its pass of the queue is the consumer's, which may have been split for producers before; its pass
    /// of the turn is one under whose numbers nothing was entered. Takes no memory.
    pub fn new(take: QueuePass<Item>, act: Pass<Acting<P>>) -> OrderHand<P>
        requires none { (known take).took ≡ [] }
        requires fresh { own (view act) ≡ [] }
        ensures fits { (turn : PartyTurn P) (queue : queues.StageQueue items.Item) → IsQueuePass queue take → (known take).takes ≡ true → IsPartyPass P.made turn act → FitsOrder P.made turn queue result }
        ensures is { (result.take ≡ take) × (result.act ≡ act) × (result.held ≡ None) × (result.lost ≡ false) }
    {
        OrderHand {
            take,
            act,
            held: None,
            lost: false,
        }
    }

    /// The item that it holds.
    fn held_item(&mut self, turn: &Turn<Acting<P>>, queue: &StageQueue<Item>) -> Option<Item>
        requires fits { FitsOrder P.made turn.now queue.now self.old }
        requires open { self.old.lost ≡ false }
        ensures some { IfSome result (λ item. Holds P.made turn.now queue.now self.new (entry_of item ∷ [])) }
        ensures none { IsNone result → Holds P.made turn.now queue.now self.new [] }
        ensures free { (self.new.held ≡ None) × (self.new.lost ≡ false) }
        ensures same { IsSameOrder self.old self.new }
    {
        self.held.take()
    }

    /// The oldest item of the queue.
    fn next_item<R: Wait>(
        &mut self,
        rt: &R,
        turn: &Turn<Acting<P>>,
        queue: &StageQueue<Item>,
    ) -> Option<Item>
        requires holds { Holds P.made turn.now queue.now self.old [] }
        requires free { (self.old.held ≡ None) × (self.old.lost ≡ false) }
        ensures some { IfSome result (λ item. Holds P.made turn.now queue.now self.new (entry_of item ∷ [])) }
        ensures none { IsNone result → Holds P.made turn.now queue.now self.new [] }
        ensures free { (self.new.held ≡ None) × (self.new.lost ≡ false) }
        ensures same { IsSameOrder self.old self.new }
    {
        queue.take(rt, &mut self.take)
    }

    /// Hears an item. One that wasn't verified for this party's members and keys is lost, and so is one for which memory is refused.
    fn act_on(
        &mut self,
        turn: &Turn<Acting<P>>,
        queue: &StageQueue<Item>,
        reader: &Reader<'_>,
        item: Item,
    ) -> Look
        requires holds { Holds P.made turn.now queue.now self.old (entry_of item ∷ []) }
        requires free { (self.old.held ≡ None) × (self.old.lost ≡ false) }
        requires reader { AreOfParty P.made turn.now reader.now.members.now reader.now.ring.now }
        ensures fits { FitsOrder P.made turn.now queue.now self.new }
        ensures same { IsSameOrder self.old self.new }
        ensures not_idle { result ≢ Idle }
        ensures lost { self.new.lost ≡ true → result ≡ NoMemoryLook }
    {
        let _ = queue;
        if !item.heard.is_for(reader.members, reader.ring) {
            drop(item);
            self.lost = true;
            return Look::NoMemory;
        }
        match hear(turn, &mut self.act, item) {
            Heard::Done => Look::Moved,
            Heard::Lost => {
                self.lost = true;
                Look::NoMemory
            }
            Heard::Busy(back) => {
                self.held = Some(back);
                Backoff::new().snooze();
                Look::Moved
            }
        }
    }

    /// One look: it hears the item that it holds, or else the oldest one of the queue, in one claim of the turn.
    ///
    /// `Idle` comes where it held nothing and the queue was empty. `NoMemory` comes where an item was lost, now or before: memory was refused
    /// while it was heard, or it was verified for other members or keys, which an input worker with the same reader never does. Where
    /// another worker has the turn it rests for a moment, keeps the item, and answers `Moved`.
    pub fn look<R: Wait>(
        &mut self,
        rt: &R,
        turn: &Turn<Acting<P>>,
        queue: &StageQueue<Item>,
        reader: &Reader<'_>,
    ) -> Look
        requires fits { FitsOrder P.made turn.now queue.now self.old }
        requires reader { AreOfParty P.made turn.now reader.now.members.now reader.now.ring.now }
        ensures fits { FitsOrder P.made turn.now queue.now self.new }
        ensures same { IsSameOrder self.old self.new }
        ensures idle { result ≡ Idle → Holds P.made turn.now queue.now self.new [] × (self.new.held ≡ None) }
        ensures lost { self.new.lost ≡ true → result ≡ NoMemoryLook }
    {
        if self.lost {
            return Look::NoMemory;
        }
        if let Some(item) = self.held_item(turn, queue) {
            return self.act_on(turn, queue, reader, item);
        }
        match self.next_item(rt, turn, queue) {
            Some(item) => self.act_on(turn, queue, reader, item),
            None => Look::Idle,
        }
    }
}
