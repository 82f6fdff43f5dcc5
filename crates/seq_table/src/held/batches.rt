//! Operations whose memory was taken before.
ghost use Rattle.std.specs.Prelude.{◌≡◌, [], true, OnOk, OnErr, IsSome, length, take, unwrap_or};
ghost use Rattle.std.specs.Map.{keys_of};
ghost use Rattle.fab_base.specs.Table.{value_in, reply_at, entries_after, key_of};
ghost use Rattle.fab_base.specs.declared.requests.Op.TheVariants.{Swap};
ghost use Rattle.seq_table.specs.Holding.{entries_of, is_held, HoldsShort};
ghost use Rattle.seq_table.specs.Batches.{value_written, held_for, held_for_all, HoldsFor};

use super::{Held, reply_of};
use crate::room::Place;
use fab_base::{Batch, Bytes, NoMemory, Op, Reply};

impl Held {
    /// Holds the keys that a batch may write. A refusal leaves some of them behind, after those that were held.
    pub fn hold_for_all(&mut self, batch: &Batch) -> Result<(), NoMemory>
        ensures ok { OnOk result (self.new ≡ held_for_all self.old batch.now) }
        ensures err { OnErr result (take (length self.old) self.new ≡ self.old) }
    {
        for request in batch.as_slice() {
            self.hold_for(&request.op)?;
        }
        Ok(())
    }

    /// Holds the key that an operation may write.
    fn hold_for(&mut self, op: &Op) -> Result<(), NoMemory>
        ensures ok { OnOk result (self.new ≡ held_for self.old op.now) }
        ensures err { OnErr result (self.new ≡ self.old) }
    {
        match op {
            Op::Put { key, .. } | Op::Swap { key, .. } => {
                let key = key.as_slice();
                if !self.has(key) {
                    self.hold(key, None)?;
                }
                Ok(())
            }
            Op::Get { .. } | Op::Cut { .. } => Ok(()),
        }
    }

    /// Carries an operation out in the memory that was taken for it.
    pub fn apply_in(&mut self, op: &Op, place: Place) -> Reply
        requires short { HoldsShort self.old }
        requires held { HoldsFor (keys_of self.old) op.now }
        requires place { place ≡ value_written op.now }
        ensures reply { result ≡ reply_at (value_in (entries_of self.old) (key_of op.now)) op.now }
        ensures state { entries_of self.new ≡ entries_after (entries_of self.old) op.now }
        ensures keys { keys_of self.new ≡ keys_of self.old }
    {
        match op {
            Op::Put { key, .. } => {
                self.replace(key.as_slice(), place.fresh());
                Reply::Wrote
            }
            Op::Get { key } => match self.value(key.as_slice()) {
                Some(value) => Reply::Found(place.answer(value)),
                None => Reply::Absent,
            },
            Op::Cut { key } => reply_of(self.replace(key.as_slice(), None)),
            Op::Swap { key, expected, .. } => self.swap_in(key.as_slice(), expected, place),
        }
    }

    /// Sets the key's value where it is the expected one, and else reads it.
    fn swap_in(&mut self, key: &[u8], expected: &Bytes, place: Place) -> Reply
        requires short { HoldsShort self.old }
        requires held { is_held (keys_of self.old) key.now ≡ true }
        requires place { IsSome place }
        ensures reply { result ≡ reply_at (value_in (entries_of self.old) key.now) (Swap key.now expected.now (unwrap_or place [])) }
        ensures state { entries_of self.new ≡ entries_after (entries_of self.old) (Swap key.now expected.now (unwrap_or place [])) }
        ensures keys { keys_of self.new ≡ keys_of self.old }
    {
        match self.value(key) {
            Some(value) if value == expected => {}
            Some(value) => return Reply::Found(place.answer(value)),
            None => return Reply::Absent,
        }
        self.replace(key, place.fresh());
        Reply::Wrote
    }
}
