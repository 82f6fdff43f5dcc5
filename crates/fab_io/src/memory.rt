//! Devices in memory, for tests: they move a stated number of bytes in each call, and fail where they are told to.
ghost use Rattle.std.specs.Prelude.{◌≡◌, ◌<◌, ◌≤◌, [], length, min, take, IfOk};
ghost use Rattle.std.specs.List.{list_any};
ghost use Rattle.std.specs.Prelude.{nat_eq};

use crate::devices::{Got, Sink, Source, Sunk};
use fab_rows::{Bytes, NoMemory, Numbers};
use std::alloc::Global;
use std::marker::Model;

/// A source that gives a list of bytes.
#[derive(Debug, Drop)]
pub struct MemSource {
    bytes: Bytes,
    place: usize,
    given: u64,
    faults: u64,
    next: u64,
    piece: usize,
    failing: Numbers,
}

impl Model for MemSource {
    ghost use Rattle.std.specs.Prelude.{◌≤◌, drop, length};
    ghost use Rattle.fab_io.specs.Memory.{Feed};

    ghost Value = { Feed };

    ghost view = { λ s. record { left = drop s.place s.bytes; given = s.given; faults = s.faults; next = s.next; piece = s.piece; failing = s.failing } };

    ghost invariant = { λ s. (1 ≤ s.piece) × (s.place ≤ length s.bytes) };
}

impl MemSource {
    /// The source that gives these bytes, at most `piece` of them in a call. The calls whose numbers, from 1, stand in `failing`
    /// fail, and no others.
    pub fn make(bytes: Bytes, piece: usize, failing: Numbers) -> MemSource
        requires { 1 ≤ piece }
        ensures { result ≡ record { left = bytes; given = 0; faults = 0; next = 1; piece = piece; failing = failing } }
    {
        MemSource {
            bytes,
            place: 0,
            given: 0,
            faults: 0,
            next: 1,
            piece,
            failing,
        }
    }
}

impl Source for MemSource {
    ghost use Rattle.fab_io.specs.Devices.{Reads};
    ghost use Rattle.fab_io.specs.Memory.{seen_of_feed, read_answer};

    ghost supply = { seen_of_feed };

    fn read(&mut self, room: &mut [u8]) -> Got
        requires { 0 < length room.old }
        ensures seen { Reads (seen_of_feed self.old) (seen_of_feed self.new) result room.new }
        ensures is { result ≡ read_answer self.old (length room.old) }
    {
        let fails = stands_in(&self.failing, self.next);
        self.next = self.next.saturating_add(1);
        if fails {
            self.faults = self.faults.saturating_add(1);
            return Got::Failed;
        }
        let n = move_front(room, &self.bytes.as_slice()[self.place..], self.piece);
        if n == 0 {
            return Got::End;
        }
        self.place += n;
        self.given = self.given.saturating_add(n as u64);
        Got::Bytes(n)
    }
}

/// Whether the number stands in the list.
fn stands_in(numbers: &Numbers, wanted: u64) -> bool
    ensures { result ≡ list_any (λ number. nat_eq number wanted) numbers.now }
{
    numbers.as_slice().iter().any(|number| *number == wanted)
}

/// Copies as many of the bytes as fit into the front of the room, `most` at most, and answers how many.
fn move_front(room: &mut [u8], bytes: &[u8], most: usize) -> usize
    ensures number { result ≡ min (min (length room.old) most) (length bytes.now) }
    ensures moved { take result room.new ≡ take result bytes.now }
{
    let n = room.len().min(most).min(bytes.len());
    room[..n].copy_from_slice(&bytes[..n]);
    n
}

/// A sink that keeps what it takes.
#[derive(Debug, Drop)]
pub struct MemSink {
    bytes: Vec<u8>,
    room: usize,
    faults: u64,
    next: u64,
    piece: usize,
    failing: Numbers,
}

impl Model for MemSink {
    ghost use Rattle.std.specs.Prelude.{◌≤◌, length, vec_capacity};
    ghost use Rattle.fab_io.specs.Memory.{Store};

    ghost Value = { Store };

    ghost view = { λ s. record { taken = s.bytes.items; room = s.room; faults = s.faults; next = s.next; piece = s.piece; failing = s.failing } };

    ghost invariant = { λ s. (1 ≤ s.piece) × (length s.bytes.items ≤ s.room) × (s.room ≤ vec_capacity s.bytes) };
}

impl MemSink {
    /// The sink that takes `room` bytes in all, at most `piece` of them in a call. The calls whose numbers, from 1, stand in
    /// `failing` fail, and so does each call once the room is full; no others. All memory is taken here, and it fails only where
    /// memory is refused.
    pub fn make(
        alloc: Global,
        room: usize,
        piece: usize,
        failing: Numbers,
    ) -> Result<MemSink, NoMemory>
        requires { 1 ≤ piece }
        ensures { IfOk result (λ sink. sink ≡ record { taken = []; room = room; faults = 0; next = 1; piece = piece; failing = failing }) }
    {
        let bytes = Vec::with_capacity(alloc, room)?;
        Ok(MemSink {
            bytes,
            room,
            faults: 0,
            next: 1,
            piece,
            failing,
        })
    }

    /// The bytes that it took.
    pub fn taken(&self) -> &[u8]
        ensures { result.now ≡ self.now.taken }
    {
        self.bytes.as_slice()
    }
}

impl Sink for MemSink {
    ghost use Rattle.fab_io.specs.Devices.{Writes};
    ghost use Rattle.fab_io.specs.Memory.{seen_of_store, write_answer};

    ghost intake = { seen_of_store };

    fn write(&mut self, piece: &[u8]) -> Sunk
        requires { 0 < length piece.now }
        ensures seen { Writes (seen_of_store self.old) (seen_of_store self.new) result piece.now }
        ensures is { result ≡ write_answer self.old (length piece.now) }
    {
        let fails = stands_in(&self.failing, self.next);
        self.next = self.next.saturating_add(1);
        let free = self.room - self.bytes.len();
        if fails || free == 0 {
            self.faults = self.faults.saturating_add(1);
            return Sunk::Failed;
        }
        let n = piece.len().min(self.piece).min(free);
        self.bytes.extend_from_slice(&piece[..n]).unwrap();
        Sunk::Wrote(n)
    }
}
