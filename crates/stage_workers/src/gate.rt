//! The gate that each look passes first.

/// Something that sees each look of each worker begin, and may hold the worker for a while. It changes nothing that a contract names.
pub trait Gate<W> {
    /// A worker passes.
    fn pass(&self, worker: W);
}

/// The gate that holds nobody.
#[derive(Clone, Copy, Debug, Drop)]
pub struct NoGate;

impl<W: Copy> Gate<W> for NoGate {
    fn pass(&self, _worker: W) {}
}
