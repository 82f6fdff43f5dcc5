//! The parts that are asked, as the questions so far have left them.

use crate::counting::Counter;
use crate::tables::Book;
use crate::words::{Answer, Unanswered, at};
use crate::{copies, lists, members, quorums, slots};
use fab_base::NoMemory;
use pbft_slots::Slots;
use std::alloc::Global;

/// A tally, slots and a table.
#[derive(Drop)]
pub(crate) struct Desk {
    counter: Counter,
    slots: Slots<u64>,
    book: Book,
}

impl Desk {
    /// The parts for one member and one client.
    pub(crate) fn new(alloc: Global) -> Result<Desk, NoMemory> {
        let counter = Counter::new(alloc, 1)?;
        let slots = pbft_slots::slots(alloc, 1, 1)?;
        let book = Book::new(alloc, 1)?;
        Ok(Desk {
            counter,
            slots,
            book,
        })
    }

    /// The answer to a question.
    pub(crate) fn answer(&mut self, alloc: Global, line: &str) -> Result<String, NoMemory> {
        match self.ask(alloc, line) {
            Ok(answer) => Ok(answer),
            Err(Unanswered::Unreadable) => String::from_str(alloc, "unreadable"),
            Err(Unanswered::NoMemory) => Err(NoMemory),
        }
    }

    /// Asks the part that the first word names.
    fn ask(&mut self, alloc: Global, line: &str) -> Answer {
        match at(line, 0) {
            "quorum" => quorums::answer(alloc, line),
            "members" => members::answer(alloc, line),
            "list" => lists::answer(alloc, line),
            "copy" => copies::answer(alloc, line),
            "tally" => self.counter.answer(alloc, line),
            "slots" => slots::answer(alloc, &mut self.slots, line),
            "table" => self.book.answer(alloc, line),
            _ => Err(Unanswered::Unreadable),
        }
    }
}
