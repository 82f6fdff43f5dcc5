//! The table of settings: what begins the line of each, which numbers a line may set, and the number that holds where none does.
ghost use Rattle.std.specs.Prelude.{◌≡◌};
ghost use Rattle.fault_script.specs.Settings.{kind_of_word, row_of, is_allowed};

use crate::settings::{MOST_PATIENCE, MOST_TURNS};
use crate::words::same_word;
use fab_base::{MOST_REQUESTS, MOST_SLOTS};

/// A setting.
#[derive(Clone, Copy, Drop)]
pub(crate) enum Kind {
    /// The most requests of a batch.
    Batch,
    /// How many slots are open at once.
    Window,
    /// How many rounds there are between checkpoints.
    Interval,
    /// What keys and choices are made from.
    Seed,
    /// The entries at which a run ends.
    Turns,
    /// How many quiet moments may end in timeouts.
    Patience,
    /// The height of a replica's key.
    Height,
}

/// A row of the table.
#[derive(Clone, Copy, Drop)]
pub(crate) struct Row {
    /// The least number that a line may set.
    pub(crate) least: u64,
    /// The greatest.
    pub(crate) greatest: u64,
    /// The number that holds where no line sets one.
    pub(crate) default: u64,
}

impl Kind {
    /// The setting whose line begins with this word.
    pub(crate) fn of_word(word: &[u8]) -> Option<Kind>
        ensures { result ≡ kind_of_word word.now }
    {
        if same_word(word, b"batch") {
            Some(Kind::Batch)
        } else if same_word(word, b"window") {
            Some(Kind::Window)
        } else if same_word(word, b"interval") {
            Some(Kind::Interval)
        } else if same_word(word, b"seed") {
            Some(Kind::Seed)
        } else if same_word(word, b"turns") {
            Some(Kind::Turns)
        } else if same_word(word, b"patience") {
            Some(Kind::Patience)
        } else if same_word(word, b"height") {
            Some(Kind::Height)
        } else {
            None
        }
    }

    /// Its row.
    pub(crate) fn row(self) -> Row
        ensures { result ≡ row_of self }
    {
        let (least, greatest, default) = match self {
            Kind::Batch => (1, MOST_REQUESTS as u64, 8),
            Kind::Window => (1, MOST_SLOTS as u64, 16),
            Kind::Interval => (1, MOST_SLOTS as u64, 8),
            Kind::Seed => (0, u64::MAX, 0),
            Kind::Turns => (1, MOST_TURNS as u64, 100_000),
            Kind::Patience => (0, MOST_PATIENCE as u64, 10),
            Kind::Height => (5, 10, 10),
        };
        Row {
            least,
            greatest,
            default,
        }
    }

    /// Whether a number of its range may be set: of the heights only 5 and 10.
    pub(crate) fn allows(self, n: u64) -> bool
        ensures { result ≡ is_allowed self n }
    {
        match self {
            Kind::Height => n == 5 || n == 10,
            _ => true,
        }
    }
}
