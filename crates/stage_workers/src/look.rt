//! What a look of a worker answers, and where it is kept.

/// What came of one look, or of all looks of a call of [`drive`](crate::drive).
#[derive(Clone, Copy, Debug, Drop, PartialEq, Eq)]
pub enum Look {
    /// Something was done, or is still to be done: there is a reason to look again.
    Moved,
    /// There was nothing to do.
    Idle,
    /// Memory was refused.
    NoMemory,
}

/// A worker's place among its crew: what it owns, and what its looks came to.
#[derive(Drop)]
pub struct Post<H> {
    /// What the worker owns.
    pub hand: H,
    /// What the looks of the last call of [`drive`](crate::drive) came to. What stands here before the call is of no matter.
    pub said: Look,
}
