//! What calls are made on, and their answers.
use crate::told::Told;
use fab_io::{Got, MemSink, MemSource, ReadSource, Sink, Source, Sunk, WriteSink};
use fab_rows::{NoMemory, Numbers, Rows};
use std::alloc::Global;

/// The device that calls speak of.
#[derive(Drop)]
enum Device {
    None,
    Source(MemSource),
    Sink(MemSink),
    Reader(ReadSource<Told>),
    Writer(WriteSink<Told>),
}

/// The device that stands on it.
#[derive(Drop)]
pub(crate) struct Bench {
    device: Device,
}

/// How many bytes a device moves in a call, and which call fails.
#[derive(Clone, Copy, Drop)]
struct Pace<'a> {
    piece: &'a str,
    failing: &'a str,
}

impl Bench {
    /// There is no device.
    pub(crate) fn new() -> Bench {
        Bench {
            device: Device::None,
        }
    }

    /// The answer to a call. `Err` comes only where memory is refused.
    pub(crate) fn answer(&mut self, alloc: Global, call: &str) -> Result<String, NoMemory> {
        let words: Vec<&str> = call.split(' ').collect(alloc)?;
        match words.as_slice() {
            ["source", bytes, piece, failing] => {
                let bytes = bytes.as_bytes().to_vec(alloc)?;
                self.device = Device::Source(source(alloc, bytes, Pace { piece, failing })?);
            }
            ["sink", room, piece, failing] => {
                self.device = Device::Sink(sink(alloc, number(room), Pace { piece, failing })?);
            }
            ["reader", told] => {
                self.device = Device::Reader(ReadSource::of(Told::of(
                    told.as_bytes().to_vec(alloc)?,
                )));
            }
            ["writer", told] => {
                self.device = Device::Writer(WriteSink::of(Told::of(
                    told.as_bytes().to_vec(alloc)?,
                )));
            }
            ["read", room] => return self.read(alloc, number(room)),
            ["write", piece] => return self.write(alloc, piece.as_bytes()),
            ["taken"] => return self.taken(alloc),
            _ => return String::from_str(alloc, "unreadable"),
        }
        String::from_str(alloc, "made")
    }

    fn read(&mut self, alloc: Global, room: usize) -> Result<String, NoMemory> {
        match &mut self.device {
            Device::Source(source) => read_from(alloc, source, room),
            Device::Reader(source) => read_from(alloc, source, room),
            _ => String::from_str(alloc, "no source"),
        }
    }

    fn write(&mut self, alloc: Global, piece: &[u8]) -> Result<String, NoMemory> {
        match &mut self.device {
            Device::Sink(sink) => write_to(alloc, sink, piece),
            Device::Writer(sink) => write_to(alloc, sink, piece),
            _ => String::from_str(alloc, "no sink"),
        }
    }

    fn taken(&self, alloc: Global) -> Result<String, NoMemory> {
        match &self.device {
            Device::Sink(sink) if sink.taken().is_empty() => String::from_str(alloc, "nothing"),
            Device::Sink(sink) => shown(alloc, sink.taken()),
            _ => String::from_str(alloc, "no sink in memory"),
        }
    }
}

/// The number that a word spells, or 0.
fn number(word: &str) -> usize {
    word.parse().unwrap_or(0)
}

/// The numbers of the calls that fail.
fn failing(alloc: Global, pace: Pace<'_>) -> Result<Numbers, NoMemory> {
    Ok(Rows::from_vec([number(pace.failing) as u64].to_vec(alloc)?))
}

fn source(alloc: Global, bytes: Vec<u8>, pace: Pace<'_>) -> Result<MemSource, NoMemory> {
    Ok(MemSource::make(
        Rows::from_vec(bytes),
        number(pace.piece).max(1),
        failing(alloc, pace)?,
    ))
}

fn sink(alloc: Global, room: usize, pace: Pace<'_>) -> Result<MemSink, NoMemory> {
    MemSink::make(
        alloc,
        room,
        number(pace.piece).max(1),
        failing(alloc, pace)?,
    )
}

/// What a read into a room of so many bytes, at least one, comes to.
fn read_from<S: Source>(alloc: Global, source: &mut S, room: usize) -> Result<String, NoMemory> {
    let mut room = vec![in alloc; 0u8; room.max(1)]?;
    match source.read(room.as_mut_slice()) {
        Got::Bytes(n) => shown(alloc, &room.as_slice()[..n]),
        Got::End => String::from_str(alloc, "end"),
        Got::Failed => String::from_str(alloc, "failed"),
    }
}

/// What a write comes to.
fn write_to<K: Sink>(alloc: Global, sink: &mut K, piece: &[u8]) -> Result<String, NoMemory> {
    if piece.is_empty() {
        return String::from_str(alloc, "nothing to write");
    }
    match sink.write(piece) {
        Sunk::Wrote(n) => format!(in alloc; "{n}"),
        Sunk::Failed => String::from_str(alloc, "failed"),
    }
}

/// Bytes as text.
fn shown(alloc: Global, bytes: &[u8]) -> Result<String, NoMemory> {
    let mut text = String::new(alloc);
    for byte in bytes {
        text.push(char::from(*byte))?;
    }
    Ok(text)
}
