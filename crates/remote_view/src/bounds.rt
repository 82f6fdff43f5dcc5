//! How much one signer may have counted.

/// The most open pleas of a kind, Drvcs or Rvcs, that count of each signer (ours). A further one is `Kept` and doesn't count.
pub const MOST_OPEN_PLEAS: usize = 64;
