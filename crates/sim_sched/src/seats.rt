//! A replica's place in a run.
use run_words::{Mover, Pending, TurnedList};

/// A party, what is on its way to it, and what it refused.
#[derive(Drop)]
pub struct Seat<P> {
    /// Who sits there.
    pub(crate) party: P,
    /// The copies on their way to it, in the order in which they were put.
    pub(crate) way: Vec<Pending>,
    /// The parcels that it refused, in the order in which it did.
    pub(crate) refused: TurnedList,
}

/// One step of a seat.
#[derive(Clone, Copy, Drop)]
pub enum Choice {
    /// The copy at this place of those on their way is heard.
    Hear(usize),
    /// An event is given.
    Give(Mover),
}
