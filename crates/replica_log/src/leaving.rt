//! The trace: what a replica leaves behind.
ghost use Rattle.std.specs.Prelude.{◌≡◌, [], IfOk};
ghost use Rattle.run_words.specs.Acts.{IsTraceBut};
ghost use Rattle.run_words.specs.Runs.{trace_of};
ghost use Rattle.run_words.specs.Journal.{parcels_of};
ghost use Rattle.replica_log.specs.Leaving.{left_with};
ghost use Rattle.replica_log.specs.Keeping.{maker_of, Keeps, IsLive};

use crate::keepers::Keeper;
use fab_base::{NoMemory, Rows};
use lms_tree::Signer;
use parcel_post::parcels_of;
use run_words::{Parcels, Trace};

impl<S: Signer + Drop> Keeper<S> {
    /// What it put: each item has a spelling. It fails only where memory is refused, 2^64 - 1 parcels were put to a receiver, or a parcel
    /// was heard whose time is the last value of a `u64`.
    fn parcels(&self) -> Result<Parcels, NoMemory>
        requires { Keeps S.limit S.made S.gives self.now }
        ensures { IfOk result (λ parcels. parcels ≡ parcels_of (maker_of S.limit S.gives self.now) self.now.journal.items) }
    {
        parcels_of(*self.journal.allocator(), &self.journal)
    }

    /// What it leaves behind with these parcels. Takes no memory.
    fn into_trace(self, parcels: Parcels) -> Trace
        ensures { result ≡ left_with self parcels }
    {
        let alloc = *self.journal.allocator();
        let unsent = self.core.waiting() as u64;
        drop(self.core);
        drop(self.members);
        drop(self.ring);
        drop(self.numbers);
        drop(self.signer);
        Trace {
            id: self.me,
            fault: None,
            journal: Rows::from_vec(self.journal),
            signed: Rows::from_vec(self.signed),
            parcels,
            refused: Rows::new(alloc),
            unsent,
        }
    }

    /// What it leaves behind: the trace of its journal, with nothing refused. Where its core isn't the one after the journal, the number of
    /// items that wait isn't told. It fails only where memory is refused, 2^64 - 1 parcels were put to a receiver, or a parcel was heard
    /// whose time is the last value of a `u64`.
    pub(crate) fn leave(self) -> Result<Trace, NoMemory>
        requires kept { Keeps S.limit S.made S.gives self }
        ensures live { IsLive S.limit S.gives self → IfOk result (λ trace. trace ≡ trace_of (maker_of S.limit S.gives self) self.journal.items []) }
        ensures but { IfOk result (λ trace. IsTraceBut (maker_of S.limit S.gives self) self.journal.items trace) }
    {
        match self.parcels() {
            Ok(parcels) => Ok(self.into_trace(parcels)),
            Err(NoMemory) => {
                drop(self);
                Err(NoMemory)
            }
        }
    }
}
