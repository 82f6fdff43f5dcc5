//! What stands in lists inside a message, and those lists.
ghost use Rattle.std.specs.Prelude.{◌≡◌, ◌≤◌, ◌&&◌, ℕ, Bool, List, IsTrue, length, map, OnOk};
ghost use Rattle.std.specs.List.{flat_map, list_all};
ghost use Rattle.fab_rules.specs.Lists.{rises_by};
ghost use Rattle.fab_rules.specs.Format.{at_most};
ghost use Rattle.fab_rules.specs.Spelling.{counted};
ghost use Rattle.msg_spell.specs.Pieces.{Gains};

use crate::fields::put_u8;
use crate::writers::Writer;
use fab_base::Rows;

/// What is tested against the ranges, counts and lengths of the format.
pub trait Fits {
    ghost fits: { Self → Bool };

    /// Whether it is within them. That a number is within its range is known from its type, and not tested.
    fn fits(&self) -> bool
        ensures { result ≡ fits self.now };
}

/// What has one spelling wherever it stands.
pub trait Spelled: Fits {
    ghost spelling: { Self → List ℕ };

    /// Writes its spelling.
    fn put<W: Writer>(&self, out: &mut W) -> Result<(), W::Fault>
        requires { IsTrue (Self.fits self.now) }
        ensures { OnOk result (Gains W.holds out.old out.new (spelling self.now)) };
}

/// What stands in lists that rise.
pub trait Ordered {
    /// What the order is by.
    type Rank;

    ghost rank: { Self → Self.Rank };

    ghost before: { Self.Rank → Self.Rank → Bool };

    /// Whether this one's rank comes before the other's.
    fn precedes(&self, next: &Self) -> bool
        ensures { result ≡ before (rank self.now) (rank next.now) };
}

/// Whether all items are within the ranges, counts and lengths of the format.
pub fn all_fit<T: Fits>(items: &[T]) -> bool
    ensures { result ≡ list_all T.fits items.now }
{
    items.iter().all(|item| item.fits())
}

/// Whether the rank of each item comes before that of the next.
fn all_rise<T: Ordered>(items: &[T]) -> bool
    ensures { result ≡ rises_by T.before (map T.rank items.now) }
{
    for i in 1..items.len() {
        if !items[i - 1].precedes(&items[i]) {
            return false;
        }
    }
    true
}

/// Whether there are at most so many items, all within the ranges, counts and lengths of the format, whose ranks rise.
pub fn list_fits<T: Fits + Ordered>(items: &Rows<T>, most: u8) -> bool
    ensures { result ≡ (at_most most items.now && (list_all T.fits items.now && rises_by T.before (map T.rank items.now))) }
{
    items.len() <= most as usize && all_fit(items.as_slice()) && all_rise(items.as_slice())
}

/// Writes the spellings of the items.
fn put_all<W: Writer, T: Spelled>(out: &mut W, items: &[T]) -> Result<(), W::Fault>
    requires { IsTrue (list_all T.fits items.now) }
    ensures { OnOk result (Gains W.holds out.old out.new (flat_map T.spelling items.now)) }
{
    for item in items {
        item.put(out)?;
    }
    Ok(())
}

/// Writes the number of the items, of which there are at most 255, and their spellings.
pub fn put_counted<W: Writer, T: Spelled>(out: &mut W, items: &Rows<T>) -> Result<(), W::Fault>
    requires few { length items.now ≤ 255 }
    requires each { IsTrue (list_all T.fits items.now) }
    ensures { OnOk result (Gains W.holds out.old out.new (counted T.spelling items.now)) }
{
    put_u8(out, items.len() as u8)?;
    put_all(out, items.as_slice())
}
