//! Whether an act would make an entry.
ghost use Rattle.std.specs.Prelude.{◌≡◌};
ghost use Rattle.run_words.specs.Journal.{is_blocked, moves};
ghost use Rattle.run_words.specs.declared.movers.Mover as movers;
ghost use Rattle.replica_log.specs.Keeping.{maker_of, Keeps, IsLive};

use crate::keepers::Keeper;
use crate::sending::needs_leaf;
use lms_tree::Signer;
use replica_core as cores;
use run_words::Mover;

impl<S: Signer + Drop> Keeper<S> {
    /// Whether the first item is to be signed by the replica itself, and no leaf is left.
    fn is_blocked(&self) -> bool
        requires kept { Keeps S.limit S.made S.gives self.now }
        requires live { IsLive S.limit S.gives self.now }
        ensures { result ≡ is_blocked (maker_of S.limit S.gives self.now) self.now.journal.items }
    {
        let spent = self.signer.spent();
        needs_leaf(self.me, &self.core) && spent
    }

    /// Whether Emit would make an entry: an item waits, and where the replica itself signs it, a leaf is left.
    fn can_emit(&self) -> bool
        requires kept { Keeps S.limit S.made S.gives self.now }
        requires live { IsLive S.limit S.gives self.now }
        ensures { result ≡ moves (maker_of S.limit S.gives self.now) self.now.journal.items movers.Mover.Emit }
    {
        let blocked = self.is_blocked();
        self.core.moves(cores::Mover::Emit) && !blocked
    }

    /// Whether an act would make an entry.
    pub(crate) fn moves(&self, mover: Mover) -> bool
        requires kept { Keeps S.limit S.made S.gives self.now }
        requires live { IsLive S.limit S.gives self.now }
        ensures { result ≡ moves (maker_of S.limit S.gives self.now) self.now.journal.items mover }
    {
        match mover {
            Mover::Batch => self.core.moves(cores::Mover::Batch),
            Mover::Nudge => self.core.moves(cores::Mover::Nudge),
            Mover::Emit => self.can_emit(),
            Mover::Execute => self.core.moves(cores::Mover::Execute),
            Mover::Checkpoint => self.core.moves(cores::Mover::Checkpoint),
            Mover::Timeout => self.core.moves(cores::Mover::Timeout),
        }
    }
}
