//! A log hears what was let in.
ghost use Rattle.std.specs.Prelude.{◌<◌, List, length, All, OnOk};
ghost use Rattle.bft_verify.specs.Sound.{IsSound};
ghost use Rattle.run_words.specs.Journal.{Maker};
ghost use Rattle.forged_example.specs.Standing.{IsStanding, AreStanding, IsForLog};

use bft_verify::Verified;
use fab_base::{NoMemory, ReplicaId};
use lms_leaf::LeafSigner;
use replica_log::ReplicaLog;
use run_words::{Act, Origin, Party, Told};

/// A log hears a message, as the first that comes from a replica. A log that stands goes on standing.
fn hear(log: &mut ReplicaLog<LeafSigner>, from: ReplicaId, heard: Verified) -> Result<(), NoMemory>
    requires made { IsForLog heard log.old }
    requires sound { IsSound heard.members heard.ring heard.message }
    ensures { OnOk result ((m : Maker) → IsStanding m log.old → IsStanding m log.new) }
{
    match log.act(Act::Hear(Origin::Replica { from, time: 0 }, heard)) {
        Told::NoMemory => Err(NoMemory),
        _ => Ok(()),
    }
}

/// The log at a place hears a message. Logs that stand go on standing.
pub(crate) fn hear_at(
    logs: &mut [ReplicaLog<LeafSigner>],
    place: usize,
    from: ReplicaId,
    heard: Verified,
) -> Result<(), NoMemory>
    requires there { place < length logs.old }
    requires made { All (IsForLog heard) logs.old }
    requires sound { IsSound heard.members heard.ring heard.message }
    ensures { OnOk result ((makers : List Maker) → AreStanding makers logs.old → AreStanding makers logs.new) }
{
    hear(&mut logs[place], from, heard)
}
