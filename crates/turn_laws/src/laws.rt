//! The laws of what workers did, of what was taken, and of what a fleet leaves behind.

ghost use Rattle.turn_laws.specs.Seats.{KindLaw, HearLaw, EmitLaw, HeardLaw, PutLaw, StillLaw};
ghost use Rattle.turn_laws.specs.Takings.{TakenLaw, HeardEndLaw};
ghost use Rattle.turn_laws.specs.Fleets.{LawfulLaw, SettledLaw};
ghost use Rattle.turn_laws.specs.Examples.{MetLaw};

use run_words::Party;

/// What one act of a worker adds to its own entries (`kinds`, `hears`, `emits`), and what all own entries together come to (`heard`, `put`);
/// and when nothing more can be done (`still`).
pub fn seats_law<P: Party>()
    ensures kinds { KindLaw P.made }
    ensures hears { HearLaw P.made }
    ensures emits { EmitLaw P.made }
    ensures heard { HeardLaw }
    ensures put { PutLaw }
    ensures still { StillLaw P.made }
{}

/// What a consumer took is, item for item, what it took of each producer (`taken`). So what a replica heard is what its input workers read,
/// but for what is held between them (`heard`).
pub fn taken_law()
    ensures taken { TakenLaw }
    ensures heard { HeardEndLaw }
{}

/// Whatever was fed to the replicas of a fleet, in whatever order its threads came: where each journal is one that the replica's machine makes,
/// what input workers took is a beginning of what was put, and Nudges and Timeouts were given at quiet moments alone, the transcript is lawful
/// (`lawful`). Where nothing is left, nothing moves and patience was used, it is settled (`settled`).
pub fn fleet_law()
    ensures lawful { LawfulLaw }
    ensures settled { SettledLaw }
{}

/// All that `fleet_law` asks can be met: by a replica alone, of which nothing is asked, with one moment that ends in timeouts and one that doesn't.
pub fn fleet_example()
    ensures { MetLaw }
{}
