//! What a pass of the stage queue knows. No value of this type is made: it stands in contracts alone.

use std::collections::LinkedList;

/// What a pass may do, and what it has put or taken.
pub struct Known<T> {
    /// Whether it may put: it is a producer's.
    pub puts: bool,
    /// Whether it may take, and split and join: it is the consumer's.
    pub takes: bool,
    /// The producer's number, which no other pass of the queue has or had.
    pub from: u64,
    /// All that the producer has put, the first first.
    pub put: LinkedList<T>,
    /// All that the consumer has taken, the first first, each with the number of the producer that put it.
    pub took: LinkedList<(u64, T)>,
    /// How many producers were split off the consumer's pass: their numbers are those below.
    pub made: u64,
    /// The producers whose passes were joined, the last first: the number of each, and all that it put.
    pub joined: LinkedList<(u64, LinkedList<T>)>,
}
