//! Where a program's bytes come from and where they go.
ghost use Rattle.std.specs.Prelude.{◌<◌, length};
ghost use Rattle.fab_io.specs.Devices.{Supply, Intake, Reads, Writes};

/// What a read came to.
#[derive(Clone, Copy, Debug, Drop, PartialEq, Eq)]
pub enum Got {
    /// So many bytes, at least 1, stand at the front of the room.
    Bytes(usize),
    /// Nothing is left.
    End,
    /// The read failed. Nothing is lost: what was left is left.
    Failed,
}

/// What a write came to.
#[derive(Clone, Copy, Debug, Drop, PartialEq, Eq)]
pub enum Sunk {
    /// So many bytes, at least 1, of the front of the piece were taken.
    Wrote(usize),
    /// The write failed. Nothing of the piece was taken.
    Failed,
}

/// A source of bytes.
///
/// What is seen of it is a `Supply`: the bytes that it has left, where it tells them; the number of bytes that it gave; and a count
/// of faults that never falls. Both numbers stand still at the last value of a `u64`.
pub trait Source {
    ghost supply: { Self → Supply };

    /// Reads some bytes into the front of the room, which isn't empty. `Bytes` gives the first ones left; `End` comes only where
    /// nothing is left, where that is told; and `Failed` comes only where the count of faults rose in this call or stands at its last
    /// value.
    fn read(&mut self, room: &mut [u8]) -> Got
        requires { 0 < length room.old }
        ensures { Reads (supply self.old) (supply self.new) result room.new };
}

/// A sink of bytes.
///
/// What is seen of it is an `Intake`: the bytes that it took, where it tells them, and a count of faults that never falls and stands
/// still at the last value of a `u64`.
pub trait Sink {
    ghost intake: { Self → Intake };

    /// Takes some bytes of the front of the piece, which isn't empty. `Failed` comes only where the count of faults rose in this
    /// call or stands at its last value, and then nothing was taken.
    fn write(&mut self, piece: &[u8]) -> Sunk
        requires { 0 < length piece.now }
        ensures { Writes (intake self.old) (intake self.new) result piece.now };
}
