//! What a pass knows of the history. No value of these types is made: they stand in contracts alone.

use std::collections::LinkedList;

/// What one of two passes had when they were joined.
pub struct Part<E> {
    /// Its seat numbers: the number n is one of them where place n is true.
    pub numbers: LinkedList<bool>,
    /// What it had seen of the history.
    pub seen: LinkedList<(u64, E)>,
}

/// What a pass knows.
pub struct Known<E, D> {
    /// What the machine was made with. None once the pass was joined away.
    pub made: Option<D>,
    /// How many seats the turn has.
    pub seats: u64,
    /// The seat numbers of the pass: the number n is one of them where place n is true.
    pub numbers: LinkedList<bool>,
    /// The seat number under which it holds the machine, or 0.
    pub mark: u64,
    /// The entries that it has seen, each with the seat number that it was made under: a beginning of the one history.
    pub seen: LinkedList<(u64, E)>,
    /// After a join, until the next step: the two that were joined.
    pub parts: LinkedList<Part<E>>,
}
