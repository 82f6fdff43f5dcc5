//! Where the pieces of a spelling go.
ghost use Rattle.std.specs.Prelude.{◌≡◌, ℕ, [], List, OnOk};
ghost use Rattle.msg_spell.specs.Pieces.{Gains};

use fab_codec::{NoMemory, put_run};
use sha2::{Digest, Sha256};
use std::convert::Infallible;

/// What takes the pieces of a spelling, one after another. Its meaning is which bytes it holds.
pub trait Writer {
    /// Why a piece isn't taken.
    type Fault;

    ghost holds: { Self → List ℕ → Type 0 };

    /// Takes a piece behind those that it holds.
    fn write(&mut self, piece: &[u8]) -> Result<(), Self::Fault>
        ensures { OnOk result (Gains holds self.old self.new piece.now) };
}

/// Holds the pieces themselves. One isn't taken where memory is refused.
impl Writer for Vec<u8> {
    ghost use Rattle.std.specs.Prelude.{◌≡◌};

    type Fault = NoMemory;

    ghost holds = { λ v written. v.items ≡ written };

    fn write(&mut self, piece: &[u8]) -> Result<(), NoMemory> {
        put_run(self, piece)
    }
}

/// Hashes the pieces. Every one is taken.
impl Writer for Sha256 {
    ghost use Rattle.sha2.specs.Hashers.{Holds256};

    type Fault = Infallible;

    ghost holds = { Holds256 };

    fn write(&mut self, piece: &[u8]) -> Result<(), Infallible> {
        self.update(piece);
        Ok(())
    }
}

/// The number of the bytes of the pieces. It stands still at the last value of a `usize`.
#[derive(Drop)]
pub struct Length {
    /// The number.
    pub bytes: usize,
}

/// Counts the bytes. Every piece is taken.
impl Writer for Length {
    ghost use Rattle.std.specs.Prelude.{◌≡◌, length, min};
    ghost use Rattle.std.below.core.specs.declared.int.usize.TheConstants.{MAX};

    type Fault = Infallible;

    ghost holds = { λ l written. l.bytes ≡ min (length written) MAX };

    fn write(&mut self, piece: &[u8]) -> Result<(), Infallible> {
        self.bytes = self.bytes.saturating_add(piece.len());
        Ok(())
    }
}
