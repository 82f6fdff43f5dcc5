//! The memory that a batch needs.
ghost use Rattle.std.specs.Prelude.{◌≡◌, ◌≤◌, [], length, vec_capacity, IfOk};
ghost use Rattle.seq_table.specs.Batches.{value_written, values_written};

use fab_base::{Batch, Bytes, LONGEST_VALUE, NoMemory, Op, Outcome};
use std::alloc::Global;
use std::collections::VecDeque;
use std::marker::Model;

/// The memory for one request: a copy of the value that it may write, and room for one that it may answer.
#[derive(Drop)]
pub struct Place {
    fresh: Option<Bytes>,
    answer: Vec<u8>,
}

impl Model for Place {
    ghost use Rattle.std.specs.Prelude.{◌≡◌, ◌≤◌, [], ℕ, List, Option, vec_capacity};
    ghost use Rattle.fab_base.specs.declared.limits.TheConstants.{LONGEST_VALUE};

    ghost Value = { Option (List ℕ) };

    ghost view = { λ p. p.fresh };

    ghost invariant = { λ p. (p.answer.items ≡ []) × (LONGEST_VALUE ≤ vec_capacity p.answer) };
}

impl Place {
    /// The memory for an operation.
    pub fn new(alloc: Global, op: &Op) -> Result<Place, NoMemory>
        ensures { IfOk result (λ place. place ≡ value_written op.now) }
    {
        let fresh = match op {
            Op::Put { value, .. } => Some(value.copy()?),
            Op::Swap { fresh, .. } => Some(fresh.copy()?),
            Op::Get { .. } | Op::Cut { .. } => None,
        };
        let answer = Vec::with_capacity(alloc, LONGEST_VALUE)?;
        Ok(Place { fresh, answer })
    }

    /// The value that is written.
    pub fn fresh(self) -> Option<Bytes>
        ensures { result ≡ self }
    {
        self.fresh
    }

    /// A copy of a value that is answered. It takes no memory.
    pub fn answer(self, value: &Bytes) -> Bytes
        requires { length value.now ≤ LONGEST_VALUE }
        ensures { result ≡ value.now }
    {
        let Place { mut answer, .. } = self;
        answer.extend_from_slice(value.as_slice()).unwrap();
        Bytes::from_vec(answer)
    }
}

/// The memory that one batch needs, which `reserve` makes and `apply_batch` uses up: for each request a copy of the value that it may
/// write and the bytes of the longest value for one that it may answer, and a list with room for all the outcomes. Contracts see the
/// values that may be written, by which a room is one for a batch.
#[derive(Drop)]
pub struct Room {
    places: VecDeque<Place>,
    outcomes: Vec<Outcome>,
}

impl Model for Room {
    ghost use Rattle.std.specs.Prelude.{◌≡◌, ◌≤◌, [], ℕ, List, Option, length, vec_capacity};

    ghost Value = { List (Option (List ℕ)) };

    ghost view = { λ r. r.places.items };

    ghost invariant = { λ r. (r.outcomes.items ≡ []) × (length r.places.items ≤ vec_capacity r.outcomes) };
}

impl Room {
    /// The memory for a batch.
    pub fn new(alloc: Global, batch: &Batch) -> Result<Room, NoMemory>
        ensures { IfOk result (λ room. room ≡ values_written batch.now) }
    {
        let mut places = VecDeque::with_capacity(alloc, batch.len())?;
        for request in batch.as_slice() {
            places.push_back(Place::new(alloc, &request.op)?)?;
        }
        let outcomes = Vec::with_capacity(alloc, batch.len())?;
        Ok(Room { places, outcomes })
    }

    /// The places of the requests, in their order, and an empty list with room for as many outcomes.
    pub fn into_parts(self) -> (VecDeque<Place>, Vec<Outcome>)
        ensures places { result.0.items ≡ self }
        ensures outcomes { result.1.items ≡ [] }
        ensures enough { length self ≤ vec_capacity result.1 }
    {
        let Room { places, outcomes } = self;
        (places, outcomes)
    }
}
