//! Questions to a table.

ghost use Rattle.std.specs.Prelude.{◌≡◌, ◌<◌, length, All, IsTrue};
ghost use Rattle.seq_table.specs.Holding.{WritesShort};

use crate::words::{Answer, Unanswered, at, bytes, plain, shown, small};
use fab_base::{
    Batch, Bytes, ClientId, LONGEST_VALUE, NoMemory, Op, Outcome, Outcomes, Reply, Request,
};
use seq_table::{Table, table};
use std::alloc::Global;

/// A table with the number of its clients, and two batches that wait.
#[derive(Drop)]
pub(crate) struct Book {
    table: Table,
    clients: u8,
    first: Batch,
    second: Batch,
    ghost size: { length table.stamps ≡ clients },
}

impl Book {
    /// An empty table of so many clients.
    pub(crate) fn new(alloc: Global, clients: u8) -> Result<Book, NoMemory> {
        let table = table(alloc, clients)?;
        Ok(Book {
            table,
            clients,
            first: Batch::new(alloc),
            second: Batch::new(alloc),
        })
    }

    /// `new CLIENTS`, `apply REQUEST`, `first REQUEST` and `second REQUEST` (one more in that batch), `both` (both batches are reserved
    /// before the first is applied), and what only looks.
    pub(crate) fn answer(&mut self, alloc: Global, line: &str) -> Answer {
        match at(line, 1) {
            "new" => self.begin(alloc, line),
            "apply" => self.apply(alloc, line),
            "first" => wait(alloc, &mut self.first, line),
            "second" => wait(alloc, &mut self.second, line),
            "both" => self.both(alloc),
            _ => self.look(alloc, line),
        }
    }

    /// `last CLIENT`, `value KEY` and `entries`.
    fn look(&self, alloc: Global, line: &str) -> Answer {
        match at(line, 1) {
            "last" => self.last(alloc, line),
            "value" => self.value(alloc, line),
            "entries" => self.entries(alloc),
            _ => Err(Unanswered::Unreadable),
        }
    }

    /// Begins again, with so many clients.
    fn begin(&mut self, alloc: Global, line: &str) -> Answer {
        *self = Book::new(alloc, small(line, 2)?)?;
        plain(alloc, "made")
    }

    /// Applies a request.
    fn apply(&mut self, alloc: Global, line: &str) -> Answer {
        let request = request(alloc, line)?;
        if !is_fit(&request, self.clients) {
            return Err(Unanswered::Unreadable);
        }
        let outcome = self.table.apply(&request)?;
        outcome_words(alloc, &outcome)
    }

    /// Reserves both batches, and applies one after the other.
    fn both(&mut self, alloc: Global) -> Answer {
        if !are_fit(self.first.as_slice(), self.clients)
            || !are_fit(self.second.as_slice(), self.clients)
        {
            return Err(Unanswered::Unreadable);
        }
        let outcomes = reserved_both(&mut self.table, &self.first, &self.second)?;
        outcomes_words(alloc, outcomes.as_slice())
    }

    /// The last stamp of a client.
    fn last(&self, alloc: Global, line: &str) -> Answer {
        let number = small(line, 2)?;
        if number >= self.clients {
            return Err(Unanswered::Unreadable);
        }
        shown(alloc, &self.table.last(ClientId { number }))
    }

    /// The value of a key.
    fn value(&self, alloc: Global, line: &str) -> Answer {
        match self.table.value(bytes(alloc, line, 2)?.as_slice()) {
            Some(value) => text(alloc, value),
            None => plain(alloc, "None"),
        }
    }

    /// All entries.
    fn entries(&self, alloc: Global) -> Answer {
        let mut words = Vec::new(alloc);
        for (key, value) in self.table.entries()?.as_slice() {
            words.push(text(alloc, key.as_slice())?)?;
            words.push(text(alloc, value.as_slice())?)?;
        }
        shown(alloc, &words)
    }
}

/// The text of bytes.
fn text(alloc: Global, bytes: &[u8]) -> Answer {
    Ok(String::from_utf8_lossy(alloc, bytes)?)
}

/// `CLIENT STAMP put KEY VALUE`, or `get KEY`, `cut KEY` or `swap KEY EXPECTED FRESH` in that place.
fn request(alloc: Global, line: &str) -> Result<Request, Unanswered> {
    let number = small(line, 2)?;
    let stamp = u32::from(small(line, 3)?);
    Ok(Request {
        client: ClientId { number },
        stamp,
        op: op(alloc, line)?,
        sig: Bytes::new(alloc),
    })
}

/// The operation of a request.
fn op(alloc: Global, line: &str) -> Result<Op, NoMemory> {
    let key = bytes(alloc, line, 5)?;
    let value = bytes(alloc, line, 6)?;
    let fresh = bytes(alloc, line, 7)?;
    Ok(match at(line, 4) {
        "put" => Op::Put { key, value },
        "get" => Op::Get { key },
        "cut" => Op::Cut { key },
        _ => Op::Swap {
            key,
            expected: value,
            fresh,
        },
    })
}

/// One request more in a batch.
fn wait(alloc: Global, batch: &mut Batch, line: &str) -> Answer {
    batch.push(request(alloc, line)?)?;
    shown(alloc, &batch.len())
}

/// Whether what an operation may write is no longer than a value may be.
fn is_short(op: &Op) -> bool
    ensures { IsTrue result → WritesShort op.now }
{
    match op {
        Op::Put { value, .. } => value.len() <= LONGEST_VALUE,
        Op::Swap { fresh, .. } => fresh.len() <= LONGEST_VALUE,
        Op::Get { .. } | Op::Cut { .. } => true,
    }
}

/// Whether a table of so many clients takes the request.
fn is_fit(request: &Request, clients: u8) -> bool
    ensures client { IsTrue result → request.now.client.number < clients }
    ensures short { IsTrue result → WritesShort request.now.op }
{
    request.client.number < clients && is_short(&request.op)
}

/// Whether a table of so many clients takes the requests.
fn are_fit(batch: &[Request], clients: u8) -> bool
    ensures clients { IsTrue result → All (λ r. r.client.number < clients) batch.now }
    ensures short { IsTrue result → All (λ r. WritesShort r.op) batch.now }
{
    for request in batch {
        if !is_fit(request, clients) {
            return false;
        }
    }
    true
}

/// The outcomes of two batches, both of which are reserved before the first is applied.
fn reserved_both(table: &mut Table, first: &Batch, second: &Batch) -> Result<Vec<Outcome>, NoMemory>
    requires first_clients { All (λ r. r.client.number < length table.old.stamps) first.now }
    requires first_short { All (λ r. WritesShort r.op) first.now }
    requires second_clients { All (λ r. r.client.number < length table.old.stamps) second.now }
    requires second_short { All (λ r. WritesShort r.op) second.now }
    ensures { length table.new.stamps ≡ length table.old.stamps }
{
    let room = table.reserve(first)?;
    let later_room = table.reserve(second)?;
    let early = table.apply_batch(first, room);
    let late = table.apply_batch(second, later_room);
    joined(early, late)
}

/// The outcomes of both, in one list.
fn joined(early: Outcomes, late: Outcomes) -> Result<Vec<Outcome>, NoMemory> {
    let mut outcomes = early.into_vec();
    outcomes.append(&mut late.into_vec())?;
    Ok(outcomes)
}

/// An outcome as words.
fn outcome_words(alloc: Global, outcome: &Outcome) -> Answer {
    match outcome {
        Outcome::Again => plain(alloc, "again"),
        Outcome::Early => plain(alloc, "early"),
        Outcome::Done(Reply::Wrote) => plain(alloc, "wrote"),
        Outcome::Done(Reply::Absent) => plain(alloc, "absent"),
        Outcome::Done(Reply::Found(value)) => text(alloc, value.as_slice()),
    }
}

/// Outcomes as words, in their order.
fn outcomes_words(alloc: Global, outcomes: &[Outcome]) -> Answer {
    let mut words = Vec::new(alloc);
    for outcome in outcomes {
        words.push(outcome_words(alloc, outcome)?)?;
    }
    Ok(words.as_slice().join(alloc, " ")?)
}
