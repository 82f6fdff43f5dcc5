//! The numbers of parcels.
ghost use Rattle.std.specs.Prelude.{◌≡◌, [], IfOk, OnOk};
ghost use Rattle.parcel_post.specs.Posting.{number_in, raised, IsPlace};

use fab_base::{NoMemory, ReplicaId};
use std::alloc::Global;
use std::marker::Model;

/// How many parcels a replica put to each receiver, from 0 to 2^64 - 1: the number of the next parcel to it (ours). Contracts see a list of
/// receivers with their counts; a receiver of none needn't be listed.
#[derive(Drop)]
pub struct Numbers {
    counts: Vec<(ReplicaId, u64)>,
}

impl Model for Numbers {
    ghost use Rattle.parcel_post.specs.Posting.{Counts};

    ghost Value = { Counts };

    ghost view = { λ numbers. numbers.counts.items };
}

/// Where a receiver is listed.
fn place_of(counts: &[(ReplicaId, u64)], to: ReplicaId) -> Option<usize>
    ensures { IsPlace counts.now to result }
{
    for place in 0..counts.len() {
        if counts[place].0 == to {
            return Some(place);
        }
    }
    None
}

impl Numbers {
    /// The numbers of a replica that has put no parcel. It takes no memory, and can't fail.
    pub fn new(alloc: Global) -> Numbers
        ensures { result ≡ [] }
    {
        Numbers {
            counts: Vec::new(alloc),
        }
    }

    /// Equal numbers. It fails only where memory is refused.
    pub(crate) fn copy(&self) -> Result<Numbers, NoMemory>
        ensures { IfOk result (λ copy. copy ≡ self.now) }
    {
        Ok(Numbers {
            counts: self.counts.to_vec(*self.counts.allocator())?,
        })
    }

    /// The number of the next parcel to a receiver, from 0; it is put, so the numbers are raised. It fails only where memory is refused
    /// or 2^64 - 1 parcels were put to the receiver.
    pub(crate) fn raise(&mut self, to: ReplicaId) -> Result<u64, NoMemory>
        ensures number { IfOk result (λ number. number ≡ number_in self.old to) }
        ensures raised { OnOk result (self.new ≡ raised self.old to) }
    {
        match place_of(&self.counts, to) {
            Some(place) => {
                let number = self.counts[place].1;
                self.counts[place].1 = number.checked_add(1).ok_or(NoMemory)?;
                Ok(number)
            }
            None => {
                self.counts.push((to, 1))?;
                Ok(0)
            }
        }
    }
}
