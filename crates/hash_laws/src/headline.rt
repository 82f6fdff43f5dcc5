//! Nothing is forged, no batches clash, and the world is safe, unless something that was heard breaks SHA-256.
ghost use Rattle.std.specs.Prelude.{◌≡◌, [], Some};
ghost use Rattle.fab_base.specs.declared.ids.Who.{Who};
ghost use Rattle.fab_base.specs.declared.messages.Message.{Message};
ghost use Rattle.fab_rules.specs.Statements.{signer_of};
ghost use Rattle.fab_rules.specs.Spelling.{signed, seal_of};
ghost use Rattle.bft_verify.specs.Sound.{signature_of};
ghost use Rattle.world_laws.specs.World.{World, IsWorld, AllHonest, FewFaulty, Unforged, NoClash};
ghost use Rattle.world_laws.specs.Safety.{IsSafe};
ghost use Rattle.hash_laws.specs.Signers.{Signers, IsSigned, IsUnbroken};

/// Where correct signers sign what they made and nothing else, and nothing that correct replicas heard gives a collision or an inverted
/// step, nothing is forged.
pub fn unforged_law()
    ensures { (w : World) (signers : Signers) → IsWorld w → IsSigned w signers → IsUnbroken w signers → Unforged w }
{}

/// Where no two batches collide, none share a digest.
pub fn no_clash_law()
    ensures { (w : World) (signers : Signers) → IsWorld w → IsUnbroken w signers → NoClash w }
{}

/// The headline down to SHA-256. Where each cluster has no more faulty members than it bears, correct replicas are honest, correct signers
/// sign what they made and nothing else, and nothing that was heard gives a collision or an inverted step, the world is safe.
pub fn safety_to_sha256_law()
    ensures { (w : World) (signers : Signers) → IsWorld w → AllHonest w → FewFaulty w → IsSigned w signers → IsUnbroken w signers → IsSafe w }
{}

/// The signature of a statement is the one that its spelling ends with.
pub fn seal_law()
    ensures { (m : Message) (who : Who) → signer_of m ≡ Some who → seal_of m ≡ signed [] (signature_of m) }
{}
