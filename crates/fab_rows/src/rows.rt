//! The one list type of the fabric.
ghost use Rattle.std.specs.Prelude.{◌≡◌, ◌↔◌, ◌++◌, [], ◌∷◌, length, IfOk, IfErr, OnOk, OnErr, IsTrue, slice_get};
ghost use Rattle.std.specs.Option.{option_copied};

use crate::NoMemory;
use crate::duplicate::Duplicate;
use std::alloc::{AllocFailed, Global};
use std::marker::Model;

/// A list that messages and answers hold. It is made from a `Vec` and gives it back without taking memory; a contract sees it as
/// the list of its items.
#[derive(Debug, Drop)]
pub struct Rows<T> {
    items: Vec<T>,
}

/// A list of bytes: a key, a value, a signature, the spelling of a message.
pub type Bytes = Rows<u8>;

/// A list of numbers.
pub type Numbers = Rows<u64>;

/// A list of keys with their values.
pub type Entries = Rows<(Bytes, Bytes)>;

impl<T> Model for Rows<T> {
    ghost use Rattle.std.specs.Prelude.{List};

    ghost Value = { List T };

    ghost view = { λ rows. rows.items.items };
}

impl<T> Rows<T> {
    /// An empty list, which takes no memory.
    pub fn new(alloc: Global) -> Rows<T>
        ensures { result ≡ [] }
    {
        Rows {
            items: Vec::new(alloc),
        }
    }

    /// The list of a vector's items.
    pub fn from_vec(items: Vec<T>) -> Rows<T>
        ensures { result ≡ items.items }
    {
        Rows { items }
    }

    /// The vector of the list's items.
    pub fn into_vec(self) -> Vec<T>
        ensures { result.items ≡ self }
    {
        self.items
    }

    /// The number of items.
    pub fn len(&self) -> usize
        ensures { result ≡ length self.now }
    {
        self.items.len()
    }

    /// Whether there is no item.
    pub fn is_empty(&self) -> bool
        ensures { IsTrue result ↔ (self.now ≡ []) }
    {
        self.items.is_empty()
    }

    /// The item at a place, from 0. `None` comes exactly from the length on.
    pub fn get(&self, place: usize) -> Option<&T>
        ensures { option_copied result ≡ slice_get self.now place }
    {
        self.items.get(place)
    }

    /// The items as a slice.
    pub fn as_slice(&self) -> &[T]
        ensures { result.now ≡ self.now }
    {
        self.items.as_slice()
    }

    /// Adds an item at the end. Where memory is refused, the item comes back and the list stays as it was.
    pub fn push(&mut self, item: T) -> Result<(), AllocFailed<T>>
        ensures ok { OnOk result (self.new ≡ self.old ++ item ∷ []) }
        ensures err { OnErr result (self.new ≡ self.old) }
        ensures handed_back { IfErr result (λ refused. refused.value ≡ item) }
    {
        self.items.push(item)
    }

    /// Adds the items of another list at the end, in their order. Where memory is refused, both lists stay as they were.
    pub fn append(&mut self, more: &mut Rows<T>) -> Result<(), NoMemory>
        ensures ok { OnOk result ((self.new ≡ self.old ++ more.old) × (more.new ≡ [])) }
        ensures err { OnErr result ((self.new ≡ self.old) × (more.new ≡ more.old)) }
    {
        self.items.append(&mut more.items)
    }
}

impl<T: Duplicate> Rows<T> {
    /// A list of equal items. It fails only where memory is refused.
    pub fn copy(&self) -> Result<Rows<T>, NoMemory>
        ensures { IfOk result (λ rows. rows ≡ self.now) }
    {
        let items = T::duplicate_all(*self.items.allocator(), self.items.as_slice())?;
        Ok(Rows { items })
    }
}

impl<T: Duplicate> Duplicate for Rows<T> {
    fn duplicate(&self) -> Result<Rows<T>, NoMemory> {
        self.copy()
    }
}

impl<T: PartialEq> PartialEq for Rows<T> {
    ghost use Rattle.std.specs.Cmp.Lexicographic.{pointwise, lists_per};

    ghost eq = { pointwise T.eq };

    ghost laws = { lists_per T.laws };

    fn eq(&self, other: &Rows<T>) -> bool {
        self.items == other.items
    }
}

impl<T: Eq> Eq for Rows<T> {
    ghost use Rattle.std.specs.Cmp.Lexicographic.{lists_equiv};

    ghost laws = { lists_equiv T.Eq.laws };
}
