//! The one loop that reads every list.
ghost use Rattle.std.specs.Prelude.{◌≡◌};

use crate::cursor::Cursor;
use crate::faults::DecodeFault;
use fab_base::Rows;

/// What stands in lists. Each item is read with what its list keeps of the one before it.
pub(crate) trait Listed: Drop {
    ghost use Rattle.std.specs.Prelude.{◌≡◌, ℕ};
    ghost use Rattle.msg_read.specs.Steps.{Reader, Gives};

    /// What is kept for the next item.
    type Last: Copy + Drop;

    ghost reads: { ℕ → Self.Last → Reader Self };

    ghost keeps: { Self → Self.Last };

    /// Reads an item, under this tag if its kind has several.
    fn read(cursor: &mut Cursor<'_>, tag: u8, last: Self::Last) -> Result<Self, DecodeFault>
    where
        Self: Sized,
        ensures { Gives (λ x. (x, cursor.new)) result (reads tag last cursor.old) };

    /// What is kept of the item.
    fn kept(&self) -> Self::Last
        ensures { result ≡ keeps self.now };
}

impl Cursor<'_> {
    ghost use Rattle.msg_read.specs.Steps.{Gives, items};

    /// So many items.
    pub(crate) fn items<T: Listed>(
        &mut self,
        tag: u8,
        count: u8,
        none: T::Last,
    ) -> Result<Rows<T>, DecodeFault>
        ensures { Gives (λ v. (v, self.new)) result (items (T.reads tag) T.keeps count none self.old) }
    {
        let mut items = Rows::new(self.alloc);
        let mut last = none;
        for _ in 0..count {
            let item = T::read(self, tag, last)?;
            last = item.kept();
            items.push(item)?;
        }
        Ok(items)
    }
}
