//! The senders that a certificate names.

ghost use Rattle.std.specs.Prelude.{◌≡◌, ◌<◌, ◌++◌, [], ◌∷◌, length, slice_get};
ghost use Rattle.std.specs.Option.{option_copied};

use std::marker::Model;

/// The most senders of a tally: a cluster has no more members (ours).
pub const MOST_SENDERS: usize = 10;

/// Indexes of at most `MOST_SENDERS` members of a cluster. Those that `cert` gives rise. A contract sees their list.
#[derive(Debug, Drop)]
pub struct Senders {
    row: [u8; MOST_SENDERS],
    count: usize,
}

impl Model for Senders {
    ghost use Rattle.std.specs.Prelude.{ℕ, List, take, ◌≤◌};
    ghost use Rattle.vote_certs.specs.declared.senders.TheConstants.{MOST_SENDERS};

    ghost Value = { List ℕ };

    ghost view = { λ s. take s.count s.row };

    ghost invariant = { λ s. s.count ≤ MOST_SENDERS };
}

impl Senders {
    /// No senders.
    pub(crate) fn new() -> Senders
        ensures { result ≡ [] }
    {
        Senders {
            row: [0; MOST_SENDERS],
            count: 0,
        }
    }

    /// One sender more, at the end.
    pub(crate) fn push(&mut self, sender: u8)
        requires { length self.old < MOST_SENDERS }
        ensures { self.new ≡ self.old ++ sender ∷ [] }
    {
        self.row[self.count] = sender;
        self.count += 1;
    }

    /// How many there are, 0 to `MOST_SENDERS`.
    pub fn len(&self) -> usize
        ensures { result ≡ length self.now }
    {
        self.count
    }

    /// The sender at a place, from 0: `None` exactly from the length on.
    pub fn get(&self, place: usize) -> Option<u8>
        ensures { result ≡ slice_get self.now place }
    {
        if place < self.count {
            Some(self.row[place])
        } else {
            None
        }
    }

    /// All of them, in order.
    pub fn as_slice(&self) -> &[u8]
        ensures { result.now ≡ self.now }
    {
        &self.row[..self.count]
    }
}
