//! What a replica is made of.
ghost use Rattle.std.specs.Prelude.{◌≡◌};

use cluster_talk::Talk;
use fab_base::{Item, ReplicaId};
use round_exec::Rounds;
use std::alloc::Global;
use std::collections::VecDeque;
use std::marker::Model;
use view_order::ViewOrder;

/// Ordering in the own cluster, the rounds of all clusters, the talk with them, and what waits to be sent, the first that was put first.
#[derive(Drop)]
pub(crate) struct Parts {
    pub(crate) me: ReplicaId,
    pub(crate) order: ViewOrder,
    pub(crate) rounds: Rounds,
    pub(crate) talk: Talk,
    pub(crate) outbox: VecDeque<Item>,
}

impl Model for Parts {
    ghost use Rattle.std.specs.Prelude.{◌≡◌, length};
    ghost use Rattle.replica_core.specs.Inside.{Assembly, AreParts, seen};

    ghost Value = { Assembly };

    ghost view = { λ p. seen p.order p.rounds p.talk p.outbox.items };

    ghost invariant = { λ p. AreParts p.me p.order p.rounds p.talk };
}

impl Parts {
    /// Where its memory comes from.
    pub(crate) fn alloc(&self) -> Global {
        *self.outbox.allocator()
    }
}
