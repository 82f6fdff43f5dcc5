//! Std's readers and writers as devices: the edge to standard input and output.
ghost use Rattle.std.specs.Prelude.{◌≡◌};

use crate::devices::{Got, Sink, Source, Sunk};
use std::io::{Read, Write};

/// A reader as a source. Each `Err` of the reader is a fault, `Interrupted` too, and a read of 0 bytes is the end. It tells the bytes
/// left where the reader does; standard input tells none.
#[derive(Drop)]
pub struct ReadSource<R: Read> {
    reader: R,
    given: u64,
    faults: u64,
}

impl<R: Read> ReadSource<R> {
    /// The source that gives what the reader has left. It gave nothing yet, and no read failed.
    pub fn of(reader: R) -> ReadSource<R>
        ensures { result ≡ record { reader = reader; given = 0; faults = 0 } }
    {
        ReadSource {
            reader,
            given: 0,
            faults: 0,
        }
    }
}

impl<R: Read> Source for ReadSource<R> {
    ghost supply = { λ s. record { left = R.remaining s.reader; given = s.given; faults = s.faults } };

    fn read(&mut self, room: &mut [u8]) -> Got {
        match self.reader.read(room) {
            Ok(0) => Got::End,
            Ok(n) => {
                self.given = self.given.saturating_add(n as u64);
                Got::Bytes(n)
            }
            Err(_) => {
                self.faults = self.faults.saturating_add(1);
                Got::Failed
            }
        }
    }
}

/// A writer as a sink. Each `Err` of the writer is a fault, and so is a write of 0 bytes. It tells the bytes taken where the writer
/// does; standard output tells none.
#[derive(Drop)]
pub struct WriteSink<W: Write> {
    writer: W,
    faults: u64,
}

impl<W: Write> WriteSink<W> {
    /// The sink that hands what it takes to the writer. No write failed yet.
    pub fn of(writer: W) -> WriteSink<W>
        ensures { result ≡ record { writer = writer; faults = 0 } }
    {
        WriteSink { writer, faults: 0 }
    }
}

impl<W: Write> Sink for WriteSink<W> {
    ghost intake = { λ s. record { taken = W.contents s.writer; faults = s.faults } };

    fn write(&mut self, piece: &[u8]) -> Sunk {
        match self.writer.write(piece) {
            Ok(0) | Err(_) => {
                self.faults = self.faults.saturating_add(1);
                Sunk::Failed
            }
            Ok(n) => Sunk::Wrote(n),
        }
    }
}
