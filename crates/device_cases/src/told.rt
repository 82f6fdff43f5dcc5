//! A reader and writer of std's kind that answers as it is told.
use std::io::{self, Read, Write};

/// Its calls in turn: `.` moves no byte, `!` is an error, and any other character moves one byte, to a reader that one. Once the
/// text is used up each call is an error.
#[derive(Drop)]
pub(crate) struct Told {
    text: Vec<u8>,
    place: usize,
}

impl Told {
    /// One that answers as the text tells.
    pub(crate) fn of(text: Vec<u8>) -> Told {
        Told { text, place: 0 }
    }

    /// What the next call is told.
    fn next(&mut self) -> u8 {
        let told = self.text.get(self.place).copied().unwrap_or(b'!');
        self.place = self.place.saturating_add(1);
        told
    }
}

impl Read for Told {
    fn read(&mut self, buf: &mut [u8]) -> io::Result<usize> {
        match (self.next(), buf) {
            (b'!', _) => Err(io::Error::from(io::ErrorKind::Interrupted)),
            (b'.', _) | (_, []) => Ok(0),
            (byte, [first, ..]) => {
                *first = byte;
                Ok(1)
            }
        }
    }
}

impl Write for Told {
    fn write(&mut self, buf: &[u8]) -> io::Result<usize> {
        match self.next() {
            b'!' => Err(io::Error::from(io::ErrorKind::BrokenPipe)),
            b'.' => Ok(0),
            _ => Ok(buf.len().min(1)),
        }
    }

    fn flush(&mut self) -> io::Result<()> {
        Ok(())
    }
}
