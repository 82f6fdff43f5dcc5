//! Parcels: what is sent, a copy for each receiver.
ghost use Rattle.std.specs.Prelude.{◌≡◌, ℕ, ◌≤◌, ◌++◌, List, length, map, replicate, IfOk};
ghost use Rattle.parcel_post.specs.Posting.{numbered, raised_by, ended, ended_parcel, HaveRoom, sent_with};

use crate::numbering::Numbers;
use fab_base::{Bytes, NoMemory, ReplicaId};
use run_words::{Parcel, Parcels};
use std::alloc::Global;
use std::marker::Model;

/// Parcels that wait for their last bytes: a signature that isn't made before all memory is taken (ours). Contracts see the
/// parcels with some bytes or other in the open places, the numbers after they are sent, and how many bytes are open.
#[derive(Drop)]
pub struct Prepared {
    alloc: Global,
    parcels: Vec<Parcel>,
    numbers: Numbers,
    room: usize,
}

impl Model for Prepared {
    ghost use Rattle.parcel_post.specs.Posting.{Draft, HaveRoom};

    ghost Value = { Draft };

    ghost view = { λ p. record { parcels = p.parcels.items; counts = p.numbers; room = p.room } };

    ghost invariant = { λ p. HaveRoom p.room p.parcels.items };
}

/// These bytes, and so many that are still to be written.
fn with_room(alloc: Global, front: &[u8], room: usize) -> Result<Bytes, NoMemory>
    ensures { IfOk result (λ bytes. bytes ≡ front.now ++ replicate room 0) }
{
    let mut bytes = Vec::new(alloc);
    bytes.extend_from_slice(front)?;
    bytes.resize(front.len().checked_add(room).ok_or(NoMemory)?, 0)?;
    Ok(Bytes::from_vec(bytes))
}

/// The bytes with these in place of the last ones. Takes no memory.
fn ended(bytes: Bytes, back: &[u8]) -> Bytes
    requires { length back.now ≤ length bytes }
    ensures { result ≡ ended back.now bytes }
{
    let mut bytes = bytes.into_vec();
    let start = bytes.len() - back.len();
    bytes[start..].copy_from_slice(back);
    Bytes::from_vec(bytes)
}

/// The same of a parcel's bytes.
fn end(alloc: Global, parcel: &mut Parcel, back: &[u8])
    requires { length back.now ≤ length parcel.old.bytes }
    ensures { parcel.new ≡ ended_parcel back.now parcel.old }
{
    let bytes = std::mem::replace(&mut parcel.bytes, Bytes::new(alloc));
    parcel.bytes = ended(bytes, back);
}

/// The same of each parcel.
fn end_all(alloc: Global, parcels: &mut [Parcel], back: &[u8])
    requires { HaveRoom (length back.now) parcels.old }
    ensures { parcels.new ≡ map (ended_parcel back.now) parcels.old }
{
    for parcel in parcels.iter_mut() {
        end(alloc, parcel, back);
    }
}

/// Makes the parcels of what is to be sent at a time of the replica's clock: a copy for each receiver, in order, each with the number of
/// parcels that were put to that receiver before, from 0 (ours). Each copy has the bytes of `front` and then `room` bytes more that are
/// still open. All memory is taken for them, and `numbers` stay what they are until the parcels are sent. It fails only where memory is
/// refused, where 2^64 - 1 parcels were put to a receiver, or where the bytes of a copy would be more than a `usize` counts.
pub fn prepare(
    alloc: Global,
    numbers: &Numbers,
    time: u64,
    front: &[u8],
    room: usize,
    to: &[ReplicaId],
) -> Result<Prepared, NoMemory>
    ensures parcels { IfOk result (λ p. (back : List ℕ) → length back ≡ room → sent_with back p ≡ numbered numbers.now time (front.now ++ back) to.now) }
    ensures counts { IfOk result (λ p. p.counts ≡ raised_by numbers.now to.now) }
    ensures room { IfOk result (λ p. p.room ≡ room) }
{
    let mut after = numbers.copy()?;
    let mut parcels = Vec::with_capacity(alloc, to.len())?;
    for receiver in to {
        parcels.push(Parcel {
            to: *receiver,
            number: after.raise(*receiver)?,
            time,
            bytes: with_room(alloc, front, room)?,
            passes: 1,
        })?;
    }
    Ok(Prepared {
        alloc,
        parcels,
        numbers: after,
        room,
    })
}

impl Prepared {
    /// Sends the parcels with these last bytes, as many as are open, and makes `numbers` those that follow them. It takes no memory, and
    /// can't fail.
    pub fn send(self, numbers: &mut Numbers, back: &[u8]) -> Parcels
        requires { length back.now ≡ self.room }
        ensures parcels { result ≡ sent_with back.now self }
        ensures counts { numbers.new ≡ self.counts }
    {
        let Prepared {
            alloc,
            mut parcels,
            numbers: after,
            ..
        } = self;
        end_all(alloc, &mut parcels, back);
        *numbers = after;
        Parcels::from_vec(parcels)
    }
}
