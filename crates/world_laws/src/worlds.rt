//! Worlds that the headline is about. Their replicas sign what they say, whatever the seeds of their keys.
ghost use Rattle.std.specs.Prelude.{◌≡◌, [], ◌∷◌};
ghost use Rattle.lmots_core.specs.declared.seed.OtsSeed.{OtsSeed};
ghost use Rattle.fab_base.specs.declared.messages.Message.{Message};
ghost use Rattle.fab_rules.specs.Lists.{In};
ghost use Rattle.fab_rules.specs.Digests.{batch_digest};
ghost use Rattle.fab_rules.specs.Diary.{Said};
ghost use Rattle.world_laws.specs.World.{IsWorld, AllHonest, FewFaulty, Unforged, NoClash, IsRepeated, common_ledger};
ghost use Rattle.world_laws.specs.LoneWorld.{only, lone_world, lone_block};
ghost use Rattle.world_laws.specs.BusyWorld.{first_batch, second_batch, vote_for, first_block, first_lines, busy_world};
ghost use Rattle.world_laws.specs.PairWorld.{null_block, pair_world};

/// The premises of the headline can be met, and by a world that does something: a replica alone in its cluster orders the null batch.
pub fn world_example()
    ensures world { (seed : OtsSeed) → IsWorld (lone_world seed) }
    ensures honest { (seed : OtsSeed) → AllHonest (lone_world seed) }
    ensures few_faulty { (seed : OtsSeed) → FewFaulty (lone_world seed) }
    ensures unforged { (seed : OtsSeed) → Unforged (lone_world seed) }
    ensures no_clash { (seed : OtsSeed) → NoClash (lone_world seed) }
    ensures ledger { (seed : OtsSeed) → common_ledger (lone_world seed) ≡ lone_block ∷ [] }
{}

/// The premises can be met by a world that does more. A replica alone in its cluster orders a client's request, repeats what it came to,
/// states a checkpoint, prepares another client's, asks for view 1 with that certificate and carries the batch over: it may say its
/// Prepare in view 1. The note of round 1 is repeated by as many as a client waits for.
pub fn busy_world_example()
    ensures world { (seed : OtsSeed) → IsWorld (busy_world seed) }
    ensures honest { (seed : OtsSeed) → AllHonest (busy_world seed) }
    ensures few_faulty { (seed : OtsSeed) → FewFaulty (busy_world seed) }
    ensures unforged { (seed : OtsSeed) → Unforged (busy_world seed) }
    ensures no_clash { (seed : OtsSeed) → NoClash (busy_world seed) }
    ensures ledger { (seed : OtsSeed) → common_ledger (busy_world seed) ≡ first_block ∷ [] }
    ensures repeated { (seed : OtsSeed) → IsRepeated (busy_world seed) 1 1 (batch_digest first_batch) first_lines }
    ensures carried_over { (seed : OtsSeed) → In (Said (Message.Prepare (vote_for 1 2 second_batch))) ((busy_world seed).diary only) }
{}

/// The premises can be met by a world of two clusters: each is one replica, which orders the null batch, pleads for the other's
/// certificate inside its cluster and to the other one, hears the other's plea and its Share, and does the blocks of round 1.
pub fn pair_world_example()
    ensures world { (first second : OtsSeed) → IsWorld (pair_world first second) }
    ensures honest { (first second : OtsSeed) → AllHonest (pair_world first second) }
    ensures few_faulty { (first second : OtsSeed) → FewFaulty (pair_world first second) }
    ensures unforged { (first second : OtsSeed) → Unforged (pair_world first second) }
    ensures no_clash { (first second : OtsSeed) → NoClash (pair_world first second) }
    ensures ledger { (first second : OtsSeed) → common_ledger (pair_world first second) ≡ null_block 1 ∷ null_block 2 ∷ [] }
{}
