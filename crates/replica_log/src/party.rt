//! A log as a party of a run.
ghost use Rattle.std.specs.Prelude.{◌≡◌, false, not, ◌&&◌, length, IfOk};
ghost use Rattle.run_words.specs.Journal.{signed_of, moves};
ghost use Rattle.run_words.specs.Acts.{IsFor, Acted, StaysOpen, IsTraceBut};
ghost use Rattle.run_words.specs.Runs.{trace_of};
ghost use Rattle.replica_log.specs.Logs.{made_of};

use crate::acting::told_anyway;
use crate::logs::ReplicaLog;
use fab_base::NoMemory;
use lms_tree::Signer;
use run_words::{Act, Mover, Party, Told, Trace};

impl<S: Signer + Drop> Party for ReplicaLog<S> {
    ghost use Rattle.replica_log.specs.Logs.{made_of, KeepsSigner};

    ghost made = { made_of S.limit S.gives };

    ghost journal = { λ log. log.journal };

    ghost shut = { λ log. log.shut };

    fn entries(&self) -> u64 {
        self.keeper.journal.len() as u64
    }

    fn is_shut(&self) -> bool {
        self.shut
    }

    fn moves(&self, mover: Mover) -> bool {
        if self.shut {
            return false;
        }
        self.keeper.moves(mover)
    }

    /// What the trait says of an act, and beside it: a leaf of the key is used only for what is sent. Whatever else is told, of a refused Emit
    /// too, the signer is what it was (`signer`). As many leaves are used as contents were signed, so none for what another signed or nobody
    /// does (`leaves`).
    fn act(&mut self, act: Act) -> Told
        requires { IsFor (made_of S.limit S.gives self.old) act }
        ensures made { made_of S.limit S.gives self.new ≡ made_of S.limit S.gives self.old }
        ensures acted { Acted (made_of S.limit S.gives self.old) self.old.journal act result self.new.journal }
        ensures open { StaysOpen act result self.old.shut self.new.shut }
        ensures signer { KeepsSigner result self.old.signer self.new.signer }
        ensures leaves { S.made self.new.signer ≡ length (signed_of (made_of S.limit S.gives self.new) self.new.journal) }
    {
        if self.shut {
            drop(act);
            return Told::NoMemory;
        }
        let told = self.keeper.act(act);
        self.shut = told.is_err();
        told_anyway(told)
    }

    fn trace(self) -> Result<Trace, NoMemory> {
        self.keeper.leave()
    }
}
