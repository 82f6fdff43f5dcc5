//! The making of a `Core`.
ghost use Rattle.std.specs.Prelude.{◌≡◌, false, IfOk, IsTrue};
ghost use Rattle.fab_base.specs.Roster.{is_replica};
ghost use Rattle.fab_machine.specs.State.{fresh};

use crate::NoMemory;
use crate::parts::Parts;
use crate::replica::Core;
use cluster_talk::talk;
use fab_base::{Members, ReplicaId};
use round_exec::rounds;
use std::alloc::Global;
use std::collections::VecDeque;
use view_order::view_order;

/// A replica, which is one of the members, of which nothing was heard. It fails only where memory is refused.
pub fn core(alloc: Global, members: Members, me: ReplicaId) -> Result<Core, NoMemory>
    requires { IsTrue (is_replica members me) }
    ensures { IfOk result (λ made. made ≡ record { roster = members; me = me; state = fresh members me; shut = false }) }
{
    let rounds = rounds(alloc, members.clusters(), members.clients())?;
    let talk = talk(alloc, &members, me)?;
    let order = view_order(alloc, members, me)?;
    Ok(Core::new(Parts {
        me,
        order,
        rounds,
        talk,
        outbox: VecDeque::new(alloc),
    }))
}
