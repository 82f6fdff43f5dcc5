//! What an act under a turn answers.

use run_words::Told;

/// What a party told of an act, and how many entries its journal has after it.
#[derive(Debug, Drop)]
pub struct Answered {
    /// What the party told.
    pub told: Told,
    /// The number of entries of the journal, that of this act included.
    pub entries: u64,
}
