//! The table: reading it, and applying one request.
ghost use Rattle.std.specs.Prelude.{◌≡◌, ◌+◌, ◌<◌, ℕ, List, [], length, IfNone, IfSome, IfOk, OnOk, OnErr};
ghost use Rattle.std.specs.Option.{option_copied};
ghost use Rattle.std.specs.Map.{keys_of};
ghost use Rattle.fab_base.specs.Table.{outcome_of, state_after, last_of, value_of, key_of};
ghost use Rattle.seq_table.specs.Holding.{state_of, keys_after, WritesShort};

mod batches;

use crate::held::Held;
use fab_base::{ClientId, Entries, NoMemory, Outcome, Request};
use std::alloc::Global;
use std::marker::Model;

/// The sequential table (ours). Contracts see it as a `Holding`: the held keys in the order in which they came, each with its value or
/// none, and the last stamps. `state_of` is the state that this stands for, in which a key with none is absent.
#[derive(Drop)]
pub struct Table {
    held: Held,
    stamps: Vec<u32>,
}

impl Model for Table {
    ghost use Rattle.seq_table.specs.Holding.{Holding, HoldsShort};

    ghost Value = { Holding };

    ghost view = { λ t. record { held = t.held; stamps = t.stamps.items } };

    ghost invariant = { λ t. HoldsShort t.held };
}

impl Table {
    /// A table that holds no key.
    pub(crate) fn new(alloc: Global, stamps: Vec<u32>) -> Table
        ensures { result ≡ record { held = []; stamps = stamps.items } }
    {
        Table {
            held: Held::new(alloc),
            stamps,
        }
    }

    /// The last stamp of a client that took effect, or 0. The client is one of the table's.
    pub fn last(&self, client: ClientId) -> u32
        requires { client.number < length self.now.stamps }
        ensures { result ≡ last_of (state_of self.now) client.number }
    {
        self.stamps[usize::from(client.number)]
    }

    /// The value of a key. `None` comes exactly where it has none: it was never written, or was cut since.
    pub fn value(&self, key: &[u8]) -> Option<&[u8]>
        ensures { option_copied result ≡ value_of (state_of self.now) key.now }
    {
        match self.held.value(key) {
            Some(value) => Some(value.as_slice()),
            None => None,
        }
    }

    /// The keys that have a value, in byte order, with their values. It fails only where memory is refused.
    pub fn entries(&self) -> Result<Entries, NoMemory>
        ensures { IfOk result (λ entries. entries ≡ (state_of self.now).entries) }
    {
        self.held.entries()
    }

    /// Applies a request of one of the table's clients, whose value to write has at most `LONGEST_VALUE` bytes. A stamp up to the
    /// client's last one is answered `Again`, one beyond the next `Early`, and neither changes anything. The next stamp takes effect:
    /// the operation is carried out and the stamp becomes the last.
    ///
    /// It fails only where memory is refused, and then nothing has changed.
    pub fn apply(&mut self, request: &Request) -> Result<Outcome, NoMemory>
        requires client { request.now.client.number < length self.old.stamps }
        requires short { WritesShort request.now.op }
        ensures outcome { IfOk result (λ outcome. outcome ≡ outcome_of (state_of self.old) request.now) }
        ensures state { OnOk result (state_of self.new ≡ state_after (state_of self.old) request.now) }
        ensures keys { IfOk result (λ outcome. keys_of self.new.held ≡ keys_after (keys_of self.old.held) outcome (key_of request.now.op)) }
        ensures clients { length self.new.stamps ≡ length self.old.stamps }
        ensures err { OnErr result (self.new ≡ self.old) }
    {
        if let Some(refused) = self.refusal(request) {
            return Ok(refused);
        }
        let reply = self.held.apply(&request.op)?;
        self.stamps[usize::from(request.client.number)] = request.stamp;
        Ok(Outcome::Done(reply))
    }

    /// The outcome of a request that doesn't take effect, or none where it is the client's next one.
    fn refusal(&self, request: &Request) -> Option<Outcome>
        requires { request.now.client.number < length self.now.stamps }
        ensures due { IfNone result (request.now.stamp ≡ last_of (state_of self.now) request.now.client.number + 1) }
        ensures outcome { IfSome result (λ outcome. outcome ≡ outcome_of (state_of self.now) request.now) }
        ensures state { IfSome result (λ _. state_after (state_of self.now) request.now ≡ state_of self.now) }
        ensures keys { IfSome result (λ outcome. (keys : List (List ℕ)) (key : List ℕ) → keys_after keys outcome key ≡ keys) }
    {
        let last = self.last(request.client);
        if request.stamp <= last {
            Some(Outcome::Again)
        } else if request.stamp > last + 1 {
            Some(Outcome::Early)
        } else {
            None
        }
    }
}
