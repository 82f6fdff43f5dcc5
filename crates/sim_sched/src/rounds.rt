//! What comes of events that are given to several replicas.

/// What came of giving an event to replicas, one after another.
#[derive(Clone, Copy, Drop)]
pub struct Round {
    /// Whether the run was cut off.
    pub(crate) spent: bool,
    /// Whether a replica moved.
    pub(crate) moved: bool,
    /// The number of entries.
    pub(crate) entries: u64,
}

/// How far a run came.
#[derive(Clone, Copy, Drop)]
pub enum Progress {
    /// It was cut off.
    Cut,
    /// It goes on, with so many entries.
    On(u64),
    /// With so many entries nothing moves.
    Rest(u64),
}
