//! Questions to a tally, whose values are numbers.

ghost use Rattle.std.specs.Prelude.{◌≡◌, ◌≤◌, length};

use crate::words::{Answer, Unanswered, at, plain, shown, small};
use fab_base::NoMemory;
use std::alloc::Global;
use vote_certs::{MOST_SENDERS, Tally, tally};

/// A tally with the number of its senders.
#[derive(Drop)]
pub(crate) struct Counter {
    tally: Tally<u8>,
    senders: u8,
    ghost size: { length tally ≡ senders },
}

impl Counter {
    /// A tally of so many senders, none of which has a counted value.
    pub(crate) fn new(alloc: Global, senders: u8) -> Result<Counter, NoMemory>
        requires { (1 ≤ senders) × (senders ≤ MOST_SENDERS) }
    {
        let tally = tally(alloc, senders)?;
        Ok(Counter { tally, senders })
    }

    /// `new N`, `add SENDER VALUE`, `cert NEED VALUE`, `get NEED VALUE PLACE` (of that certificate) and `clear`.
    pub(crate) fn answer(&mut self, alloc: Global, line: &str) -> Answer {
        match at(line, 1) {
            "new" => self.begin(alloc, line),
            "add" => self.add(alloc, line),
            "cert" => self.cert(alloc, line),
            "get" => self.get(alloc, line),
            "clear" => self.clear(alloc),
            _ => Err(Unanswered::Unreadable),
        }
    }

    /// Begins again, with so many senders.
    fn begin(&mut self, alloc: Global, line: &str) -> Answer {
        let n = small(line, 2)?;
        if n == 0 || usize::from(n) > MOST_SENDERS {
            return Err(Unanswered::Unreadable);
        }
        *self = Counter::new(alloc, n)?;
        plain(alloc, "made")
    }

    /// Counts a value of a sender.
    fn add(&mut self, alloc: Global, line: &str) -> Answer {
        let sender = small(line, 2)?;
        let value = small(line, 3)?;
        if sender >= self.senders {
            return Err(Unanswered::Unreadable);
        }
        let added = self.tally.add(sender, value);
        shown(alloc, &added)
    }

    /// The first senders of a value.
    fn cert(&self, alloc: Global, line: &str) -> Answer {
        match self.tally.cert(small(line, 2)?, &small(line, 3)?) {
            Some(senders) => shown(alloc, &senders.as_slice()),
            None => plain(alloc, "None"),
        }
    }

    /// One of them, and how many there are.
    fn get(&self, alloc: Global, line: &str) -> Answer {
        let place = usize::from(small(line, 4)?);
        match self.tally.cert(small(line, 2)?, &small(line, 3)?) {
            Some(senders) => shown(alloc, &(senders.get(place), senders.len())),
            None => plain(alloc, "None"),
        }
    }

    /// Forgets all values.
    fn clear(&mut self, alloc: Global) -> Answer {
        self.tally.clear();
        plain(alloc, "cleared")
    }
}
