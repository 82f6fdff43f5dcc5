//! Sets of signed contents.
ghost use Rattle.std.specs.Prelude.{◌≡◌, ℕ, List, IfOk};
ghost use Rattle.std.specs.List.{list_any};
ghost use Rattle.std.specs.Str.{bytes_eq};

use fab_base::{Bytes, NoMemory};
use std::alloc::Global;
use std::collections::BTreeSet;
use std::marker::Model;

/// Contents that stand elsewhere, found by their bytes. A contract sees those that are in the set, in the order of their bytes.
#[derive(Drop)]
pub(crate) struct ContentSet<'a> {
    contents: BTreeSet<&'a [u8]>,
}

impl<'a> Model for ContentSet<'a> {
    ghost use Rattle.std.specs.Prelude.{ℕ, List, map};

    ghost Value = { List (List ℕ) };

    ghost view = { λ s. map (λ k. k.now) s.contents.keys };
}

impl<'a> ContentSet<'a> {
    /// The set of these contents. It fails only where memory is refused.
    pub(crate) fn of(alloc: Global, contents: &'a [Bytes]) -> Result<ContentSet<'a>, NoMemory>
        ensures { IfOk result (λ set. (content : List ℕ) → list_any (bytes_eq content) set ≡ list_any (bytes_eq content) contents.now) }
    {
        let mut set = BTreeSet::new(alloc);
        for content in contents {
            set.insert(content.as_slice())?;
        }
        Ok(ContentSet { contents: set })
    }

    /// Whether a content is among them. Takes no memory.
    pub(crate) fn has(&self, content: &[u8]) -> bool
        ensures { result ≡ list_any (bytes_eq content.now) self.now }
    {
        self.contents.contains(content)
    }
}
