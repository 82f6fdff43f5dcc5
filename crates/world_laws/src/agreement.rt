//! The laws of agreement: within a cluster in view 0, across clusters, and the headline.
ghost use Rattle.world_laws.specs.World.{World, IsWorld, AllHonest, FewFaulty, Unforged, AllMade, NoClash, OnePrepared, OneCommitted, OneCertificate, InViewZero};
ghost use Rattle.world_laws.specs.Safety.{IsSafe};

/// From signatures to statements: where nothing is forged, each statement of a correct signer that stands in what a correct replica
/// heard was made by that signer; and where this is so, nothing is forged.
pub fn made_law()
    ensures made { (w : World) → IsWorld w → Unforged w → AllMade w }
    ensures unforged { (w : World) → IsWorld w → AllMade w → Unforged w }
{}

/// Agreement in view 0 (PBFT, section 4.2): where no correct replica commits beyond view 0, two quorums of a cluster prepare one digest
/// in a view and slot, and commit one digest in a slot.
pub fn view0_law()
    ensures one_prepared { (w : World) → IsWorld w → AllHonest w → FewFaulty w → Unforged w → InViewZero w → OnePrepared w }
    ensures one_committed { (w : World) → IsWorld w → AllHonest w → FewFaulty w → Unforged w → InViewZero w → OneCommitted w }
{}

/// Agreement of clusters (GeoBFT): where two commit certificates of a cluster and round, both heard by correct replicas, have one
/// digest, the world is safe.
pub fn clusters_law()
    ensures { (w : World) → IsWorld w → AllHonest w → OneCertificate w → FewFaulty w → Unforged w → NoClash w → IsSafe w }
{}

/// The headline. Where each cluster has no more faulty members than it bears, no signature of a correct replica or client is forged and
/// no two batches share a digest, the world is safe: the ledgers of correct replicas are beginnings of one list of rounds, whose
/// requests are the clients', take effect at most once, and come to what more members than may be faulty repeat.
pub fn safety_law()
    ensures { (w : World) → IsWorld w → AllHonest w → FewFaulty w → Unforged w → NoClash w → IsSafe w }
{}
