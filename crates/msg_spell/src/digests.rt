//! The digest of a batch.
ghost use Rattle.std.specs.Prelude.{◌≡◌, IsTrue};
ghost use Rattle.fab_rules.specs.Format.{batch_fits};
ghost use Rattle.fab_rules.specs.Digests.{batch_digest};

use crate::requests::put_batch;
use fab_base::{Batch, Hash32};
use sha2::{Digest, Sha256};

/// The digest of a batch: SHA-256 (FIPS 180-4) of its spelling. The batch is within the greatest counts and lengths. Takes no memory: the
/// spelling is hashed piece by piece.
#[tactic(auto, unfolding(fab_rules::specs::Digests::batch_digest))]
pub fn batch_digest(batch: &Batch) -> Hash32
    requires { IsTrue (batch_fits batch.now) }
    ensures { result ≡ batch_digest batch.now }
{
    let mut hasher = Sha256::new();
    match put_batch(&mut hasher, batch) {
        Ok(()) => Hash32 {
            bytes: hasher.finalize(),
        },
    }
}
