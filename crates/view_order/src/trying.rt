//! The calls of which it can be asked beforehand whether they would do anything.

/// A call that [`ViewOrder::can`](crate::ViewOrder::can) is asked about.
#[derive(Clone, Copy, Debug, Drop, PartialEq, Eq)]
pub enum ViewTry {
    /// A proposal.
    Propose {
        /// Whether the replica is nudged: then one request is enough.
        nudged: bool,
        /// Whether another cluster's certificate of the round is known: then no request is needed.
        known: bool,
    },
    /// A Checkpoint, or a move of the low mark.
    Checkpoint,
    /// The replica waited long enough.
    Timeout {
        /// Whether the own cluster's certificate of the next round is kept: then its view did its part.
        own: bool,
        /// Whether another cluster's certificate of the next round is known.
        known: bool,
    },
}
