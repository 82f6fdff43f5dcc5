//! A replica's log.
use crate::keepers::Keeper;
use lms_tree::Signer;
use std::marker::Model;

/// A correct replica's log: its core with the journal of what the core did, which the core's state follows from. Contracts see whose it is, the
/// journal, the signer, and whether the log was shut: where memory is refused in the middle of an act, something may be counted and its
/// entry not made, so from then on every act answers `NoMemory`.
#[derive(Drop)]
pub struct ReplicaLog<S: Signer> {
    pub(crate) keeper: Keeper<S>,
    pub(crate) shut: bool,
}

impl<S: Signer> Model for ReplicaLog<S> {
    ghost use Rattle.replica_log.specs.Logs.{Log};
    ghost use Rattle.replica_log.specs.Keeping.{IsLog};

    ghost Value = { Log S };

    ghost view = { λ log. record { me = log.keeper.me; roster = log.keeper.members; ring = log.keeper.ring; journal = log.keeper.journal.items; shut = log.shut; signer = log.keeper.signer } };

    ghost invariant = { λ log. IsLog S.limit S.made S.gives log.keeper log.shut };
}
