//! What clients ask for, and what they are answered.
use crate::ids::ClientId;
use fab_rows::{Bytes, Rows};

/// An operation on the table (ours). A key has at most 32 bytes and a value at most 64.
#[derive(Debug, Drop, PartialEq, Eq)]
pub enum Op {
    /// Sets the key's value.
    Put {
        /// At most 32 bytes.
        key: Bytes,
        /// At most 64 bytes.
        value: Bytes,
    },
    /// Reads the key's value.
    Get {
        /// At most 32 bytes.
        key: Bytes,
    },
    /// Removes the key, and reads the value that it had.
    Cut {
        /// At most 32 bytes.
        key: Bytes,
    },
    /// Sets the key's value where it is the expected one, and else reads it.
    Swap {
        /// At most 32 bytes.
        key: Bytes,
        /// The value that is to be there: at most 64 bytes.
        expected: Bytes,
        /// The value that is written in its place: at most 64 bytes.
        fresh: Bytes,
    },
}

/// What an operation that took effect answers.
#[derive(Debug, Drop, PartialEq, Eq)]
pub enum Reply {
    /// A value was written.
    Wrote,
    /// The value that the key had.
    Found(Bytes),
    /// The key had no value.
    Absent,
}

/// What a request comes to.
#[derive(Debug, Drop, PartialEq, Eq)]
pub enum Outcome {
    /// It took effect, with this reply.
    Done(Reply),
    /// Its stamp isn't above the client's last effective one: nothing changed.
    Again,
    /// Its stamp is beyond the client's next one: nothing changed.
    Early,
}

/// A client's request. A client numbers its requests by stamps from 1, and each takes effect at most once.
#[derive(Debug, Drop, PartialEq, Eq)]
pub struct Request {
    /// Who asks.
    pub client: ClientId,
    /// The number of the request among the client's, from 1.
    pub stamp: u32,
    /// What is asked for.
    pub op: Op,
    /// The client's signature of the rest: at most 6,000 bytes.
    pub sig: Bytes,
}

/// The requests that one slot orders, at most 8. The empty batch is the null batch.
pub type Batch = Rows<Request>;

/// The outcomes of a batch's requests, in their order.
pub type Outcomes = Rows<Outcome>;
