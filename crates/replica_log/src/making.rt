//! The making of a log.
ghost use Rattle.std.specs.Prelude.{◌≡◌, ℕ, ◌<◌, true, false, List, Some, IfOk, IsTrue};
ghost use Rattle.fab_base.specs.Roster.{is_replica};
ghost use Rattle.fab_base.specs.declared.ids.Who.{Who};
ghost use Rattle.fab_rules.specs.Format.{signature_fits};
ghost use Rattle.fab_machine.specs.State.{fresh};
ghost use Rattle.bft_verify.specs.Ring.{key_of};
ghost use Rattle.replica_log.specs.Logs.{fresh_log};

use crate::keepers::Keeper;
use crate::logs::ReplicaLog;
use bft_verify::Keyring;
use fab_base::{Members, NoMemory, ReplicaId};
use lms_tree::Signer;
use parcel_post::Numbers;
use replica_core::{Core, core};
use std::alloc::Global;

/// The core of a replica of which nothing was heard, over the same members. It fails only where memory is refused.
pub(crate) fn fresh_core(alloc: Global, members: &Members, me: ReplicaId) -> Result<Core, NoMemory>
    requires { IsTrue (is_replica members.now me) }
    ensures { IfOk result (λ core. core ≡ record { roster = members.now; me = me; state = fresh members.now me; shut = false }) }
{
    core(alloc, members.share()?, me)
}

/// The log of a replica of which nothing was heard. The replica is one of the members, its signer has made no signature yet, the
/// signer's key is the ring's key of the replica, and its signatures have a place in a message. It fails only where memory is refused.
pub fn replica_log<S: Signer + Drop>(
    alloc: Global,
    members: Members,
    ring: Keyring,
    me: ReplicaId,
    signer: S,
) -> Result<ReplicaLog<S>, NoMemory>
    requires member { IsTrue (is_replica members me) }
    requires unused { S.made signer ≡ 0 }
    requires key { key_of ring (Who.Replica me) ≡ Some (S.key signer) }
    requires fits { (k : ℕ) (content : List ℕ) → k < S.limit signer → signature_fits (S.gives signer k content) ≡ true }
    ensures { IfOk result (λ log. log ≡ fresh_log members ring me signer) }
{
    // For the proof: the members are within the limits of a fabric.
    let _clusters = members.clusters();
    let core = match fresh_core(alloc, &members, me) {
        Ok(core) => core,
        Err(NoMemory) => {
            drop(members);
            drop(ring);
            drop(signer);
            return Err(NoMemory);
        }
    };
    let keeper = Keeper {
        me,
        members,
        ring,
        core,
        journal: Vec::new(alloc),
        clock: 0,
        signed: Vec::new(alloc),
        numbers: Numbers::new(alloc),
        signer,
    };
    Ok(ReplicaLog {
        keeper,
        shut: false,
    })
}
