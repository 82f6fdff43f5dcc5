//! What a worker is told that finds no room.

/// There was no room, and nothing was added.
#[derive(Debug, Drop)]
pub struct Full<T> {
    /// The item, as it was handed in.
    pub item: T,
}
