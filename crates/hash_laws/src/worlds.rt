//! A world that the headline down to SHA-256 is about.
ghost use Rattle.lmots_core.specs.declared.seed.OtsSeed.{OtsSeed};
ghost use Rattle.world_laws.specs.World.{IsWorld, AllHonest, FewFaulty};
ghost use Rattle.world_laws.specs.LoneWorld.{lone_world};
ghost use Rattle.lms_laws.specs.Hashed.{IsBytes};
ghost use Rattle.hash_laws.specs.Signers.{IsSigned, IsUnbroken};
ghost use Rattle.hash_laws.specs.SignedWorld.{lone_signers};

/// The premises of the headline down to SHA-256 can be met, and by a world that does something: a replica alone in its cluster orders the
/// null batch and signs what it says, whatever its seed.
pub fn signed_world_example()
    ensures world { (seed : OtsSeed) → IsWorld (lone_world seed) }
    ensures honest { (seed : OtsSeed) → AllHonest (lone_world seed) }
    ensures few_faulty { (seed : OtsSeed) → FewFaulty (lone_world seed) }
    ensures signed { (seed : OtsSeed) → IsBytes seed.id → IsSigned (lone_world seed) (lone_signers seed) }
    ensures unbroken { (seed : OtsSeed) → IsUnbroken (lone_world seed) (lone_signers seed) }
{}
