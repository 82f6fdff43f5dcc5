//! Exact copies.
ghost use Rattle.std.specs.Prelude.{◌≡◌, IfOk};

use crate::NoMemory;
use crate::rows::Bytes;
use std::alloc::Global;

/// A type whose values can be copied exactly, at the price of memory. `Clone` says less: it may answer any value.
pub trait Duplicate: Drop {
    /// An equal value. It fails only where memory is refused.
    fn duplicate(&self) -> Result<Self, NoMemory>
    where
        Self: Sized,
        ensures { IfOk result (λ copy. copy ≡ self.now) };

    /// Equal values, in their order, in a vector with just this room. It fails only where memory is refused. A type whose values are
    /// plain memory overrides it by one copy of the whole.
    fn duplicate_all(alloc: Global, items: &[Self]) -> Result<Vec<Self>, NoMemory>
    where
        Self: Sized,
        ensures { IfOk result (λ copies. copies.items ≡ items.now) }
    {
        let mut copies = Vec::with_capacity(alloc, items.len())?;
        for item in items {
            copies.push(item.duplicate()?)?;
        }
        Ok(copies)
    }
}

impl Duplicate for u8 {
    fn duplicate(&self) -> Result<u8, NoMemory> {
        Ok(*self)
    }

    fn duplicate_all(alloc: Global, items: &[u8]) -> Result<Vec<u8>, NoMemory> {
        items.to_vec(alloc)
    }
}

impl Duplicate for u64 {
    fn duplicate(&self) -> Result<u64, NoMemory> {
        Ok(*self)
    }

    fn duplicate_all(alloc: Global, items: &[u64]) -> Result<Vec<u64>, NoMemory> {
        items.to_vec(alloc)
    }
}

impl Duplicate for (Bytes, Bytes) {
    fn duplicate(&self) -> Result<(Bytes, Bytes), NoMemory> {
        Ok((self.0.copy()?, self.1.copy()?))
    }
}
