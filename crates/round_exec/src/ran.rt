//! What comes of executing.

/// What comes of the attempt to execute the next round.
#[derive(Clone, Copy, Debug, Drop, PartialEq, Eq)]
pub enum Ran {
    /// The round was executed.
    Executed {
        /// The round, from 1.
        round: u64,
    },
    /// A certificate is missing, and nothing has changed.
    NotYet {
        /// The first cluster without a certificate of the next round, from 1.
        cluster: u8,
    },
}
