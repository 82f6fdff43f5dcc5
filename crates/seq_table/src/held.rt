//! The keys that a table holds, each with a value or none, in the order in which they came.
ghost use Rattle.std.specs.Prelude.{◌≡◌, ◌++◌, length, take, map, Some, None, [], ◌∷◌, false, nat_eq, IfOk, OnOk, OnErr};
ghost use Rattle.std.specs.Option.{option_copied};
ghost use Rattle.std.specs.Cmp.Lexicographic.{pointwise};
ghost use Rattle.std.specs.Map.{set_value, keys_of};
ghost use Rattle.fab_base.specs.Table.{value_in, with_value, found, reply_at, entries_after, key_of};
ghost use Rattle.fab_base.specs.declared.requests.Op.TheVariants.{Swap};
ghost use Rattle.fab_base.specs.declared.requests.Outcome.TheVariants.{Done};
ghost use Rattle.seq_table.specs.Holding.{entries_of, is_held, with_key, keys_after};

mod batches;

use fab_base::{Bytes, Entries, NoMemory, Op, Reply};
use indexmap::IndexMap;
use std::alloc::Global;
use std::collections::BTreeMap;
use std::marker::Model;

/// The pairs, found by key and kept in the order in which they came. None is ever taken out.
#[derive(Drop)]
pub struct Held {
    pairs: IndexMap<Vec<u8>, Option<Bytes>>,
}

impl Model for Held {
    ghost use Rattle.std.proofs.lemmas.Map.Lookups.{map_keys};
    ghost use Rattle.seq_table.specs.Holding.{Held as Pairs};

    ghost Value = { Pairs };

    ghost view = { λ h. map_keys (λ k. k.items) h.pairs.entries };
}

impl Held {
    /// No pairs.
    pub fn new(alloc: Global) -> Held
        ensures { result ≡ [] }
    {
        Held {
            pairs: IndexMap::new(alloc),
        }
    }

    /// Whether a key is held, with a value or none.
    pub fn has(&self, key: &[u8]) -> bool
        ensures { result ≡ is_held (keys_of self.now) key.now }
    {
        self.pairs.contains_key(key)
    }

    /// The value of a key, where it has one.
    pub fn value(&self, key: &[u8]) -> Option<&Bytes>
        ensures { option_copied result ≡ value_in (entries_of self.now) key.now }
    {
        match self.pairs.get(key) {
            Some(value) => value.as_ref(),
            None => None,
        }
    }

    /// The keys that have a value, in byte order, with their values.
    pub fn entries(&self) -> Result<Entries, NoMemory>
        ensures { IfOk result (λ entries. entries ≡ entries_of self.now) }
    {
        let alloc = *self.pairs.allocator();
        let mut sorted = BTreeMap::new(alloc);
        for (key, value) in self.pairs.iter() {
            if let Some(value) = value {
                sorted.insert(key.as_slice().to_vec(alloc)?, value.copy()?)?;
            }
        }
        listed(alloc, sorted)
    }

    /// Gives a held key another value or none, and answers the one that it had. A key that isn't held stays so.
    pub fn replace(&mut self, key: &[u8], value: Option<Bytes>) -> Option<Bytes>
        ensures after { self.new ≡ set_value (pointwise nat_eq key.now) self.old value }
        ensures before { result ≡ value_in (entries_of self.old) key.now }
    {
        match self.pairs.get_mut(key) {
            Some(slot) => std::mem::replace(slot, value),
            None => None,
        }
    }

    /// Holds a key that isn't held yet, with a value or none.
    pub fn hold(&mut self, key: &[u8], value: Option<Bytes>) -> Result<(), NoMemory>
        requires { is_held (keys_of self.old) key.now ≡ false }
        ensures ok { OnOk result (self.new ≡ self.old ++ (key.now, value) ∷ []) }
        ensures err { OnErr result (self.new ≡ self.old) }
    {
        let key = key.to_vec(*self.pairs.allocator())?;
        self.pairs.insert(key, value)?;
        Ok(())
    }

    /// Gives a key a value, and holds it where it isn't held yet.
    pub fn write(&mut self, key: &[u8], value: Bytes) -> Result<(), NoMemory>
        ensures state { OnOk result (entries_of self.new ≡ with_value (entries_of self.old) key.now (Some value)) }
        ensures keys { OnOk result (keys_of self.new ≡ with_key (keys_of self.old) key.now) }
        ensures err { OnErr result (self.new ≡ self.old) }
    {
        if self.has(key) {
            self.replace(key, Some(value));
            Ok(())
        } else {
            self.hold(key, Some(value))
        }
    }

    /// The number of keys.
    pub fn len(&self) -> usize
        ensures { result ≡ length self.now }
    {
        self.pairs.len()
    }

    /// Keeps the first so many keys.
    pub fn truncate(&mut self, len: usize)
        ensures { self.new ≡ take len self.old }
    {
        self.pairs.truncate(len);
    }

    /// Carries an operation out.
    pub fn apply(&mut self, op: &Op) -> Result<Reply, NoMemory>
        ensures reply { IfOk result (λ reply. reply ≡ reply_at (value_in (entries_of self.old) (key_of op.now)) op.now) }
        ensures state { OnOk result (entries_of self.new ≡ entries_after (entries_of self.old) op.now) }
        ensures keys { IfOk result (λ reply. keys_of self.new ≡ keys_after (keys_of self.old) (Done reply) (key_of op.now)) }
        ensures err { OnErr result (self.new ≡ self.old) }
    {
        match op {
            Op::Put { key, value } => {
                let value = value.copy()?;
                self.write(key.as_slice(), value)?;
                Ok(Reply::Wrote)
            }
            Op::Get { key } => self.read(key.as_slice()),
            Op::Cut { key } => Ok(reply_of(self.replace(key.as_slice(), None))),
            Op::Swap {
                key,
                expected,
                fresh,
            } => self.swap(key.as_slice(), expected, fresh),
        }
    }

    /// The reply that reads a key.
    fn read(&self, key: &[u8]) -> Result<Reply, NoMemory>
        ensures { IfOk result (λ reply. reply ≡ found (value_in (entries_of self.now) key.now)) }
    {
        match self.value(key) {
            Some(value) => Ok(Reply::Found(value.copy()?)),
            None => Ok(Reply::Absent),
        }
    }

    /// Sets the key's value where it is the expected one, and else reads it.
    fn swap(&mut self, key: &[u8], expected: &Bytes, fresh: &Bytes) -> Result<Reply, NoMemory>
        ensures reply { IfOk result (λ reply. reply ≡ reply_at (value_in (entries_of self.old) key.now) (Swap key.now expected.now fresh.now)) }
        ensures state { OnOk result (entries_of self.new ≡ entries_after (entries_of self.old) (Swap key.now expected.now fresh.now)) }
        ensures keys { IfOk result (λ reply. keys_of self.new ≡ keys_after (keys_of self.old) (Done reply) key.now) }
        ensures err { OnErr result (self.new ≡ self.old) }
    {
        match self.value(key) {
            Some(value) if value == expected => {}
            Some(value) => return Ok(Reply::Found(value.copy()?)),
            None => return Ok(Reply::Absent),
        }
        let fresh = fresh.copy()?;
        self.replace(key, Some(fresh));
        Ok(Reply::Wrote)
    }
}

/// What a reply says of a value, or of none.
fn reply_of(value: Option<Bytes>) -> Reply
    ensures { result ≡ found value }
{
    match value {
        Some(value) => Reply::Found(value),
        None => Reply::Absent,
    }
}

/// The entries of an ordered map, in its order.
fn listed(alloc: Global, sorted: BTreeMap<Vec<u8>, Bytes>) -> Result<Entries, NoMemory>
    ensures { IfOk result (λ entries. entries ≡ map (λ e. (e.0.items, e.1)) sorted.entries) }
{
    let rows = sorted
        .into_iter()
        .map(|(key, value)| (Bytes::from_vec(key), value))
        .collect::<Vec<(Bytes, Bytes)>>(alloc)?;
    Ok(Entries::from_vec(rows))
}
