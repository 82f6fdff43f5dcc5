//! What goes over a link between two replicas.

ghost use Rattle.std.specs.Prelude.{◌≡◌};
ghost use Rattle.fab_base.specs.declared.ids.ReplicaId as ids;
ghost use Rattle.run_words.specs.Runs.{copy_of};
ghost use Rattle.run_words.specs.declared.logs.Parcel as parcels;
ghost use Rattle.stage_looks.specs.Letters.{letter_of, copy_from, CopiesLaw};

use fab_base::{Bytes, ReplicaId};
use run_words::{Origin, Pending};

/// A parcel on a link, which leads from one sender to one receiver.
#[derive(Debug, Drop)]
pub struct Letter {
    /// The number of the parcel among its sender's to this receiver, from 0.
    pub parcel: u64,
    /// The parcel's time: the sender's clock when it was sent.
    pub time: u64,
    /// The message, spelled.
    pub bytes: Bytes,
}

impl Letter {
    /// The copy that a letter on the link of this sender is. Takes no memory.
    pub fn into_copy(self, from: ReplicaId) -> Pending
        ensures { result ≡ copy_from from self }
    {
        Pending {
            origin: Origin::Replica {
                from,
                time: self.time,
            },
            number: self.parcel,
            load: self.bytes,
        }
    }
}

/// The copy that a parcel's letter is, is the copy that the parcel is on its way: with its number, its time and its bytes.
pub fn letter_law()
    ensures { (from : ids.ReplicaId) (p : parcels.Parcel) → copy_from from (letter_of p) ≡ (copy_of from p).1 }
{}

/// The letters of a sender's parcels to a receiver, read as copies on the sender's link, are the copies of these parcels to that receiver, in order
/// and each as often as it passes.
pub fn letters_law()
    ensures { CopiesLaw }
{}
