//! What a key is made from: the script's seed, and the name of whose it is.
ghost use Rattle.std.specs.Prelude.{ℕ, ◌≡◌, ◌++◌, List};
ghost use Rattle.sha2.specs.Hashers.{Holds256};
ghost use Rattle.script_keys.specs.Names.{name_of, digest_of, seed_of};

use fab_base::Who;
use lms_tree::OtsSeed;
use sha2::{Digest, Sha256};

/// Puts the name of a replica or a client behind what a hasher holds.
fn put_name(hasher: &mut Sha256, who: Who)
    ensures { (held : List ℕ) → Holds256 hasher.old held → Holds256 hasher.new (held ++ name_of who) }
{
    match who {
        Who::Replica(id) => hasher.update([1, id.cluster, id.index]),
        Who::Client(id) => hasher.update([2, id.number]),
    }
}

/// What is derived from a seed, for a purpose, for a replica or a client.
#[tactic(auto, unfolding(crate::specs::Names::digest_of))]
fn digest_of(mark: &[u8], seed: u64, who: Who) -> [u8; 32]
    ensures { result ≡ digest_of mark.now seed who }
{
    let mut hasher = Sha256::new();
    hasher.update(mark);
    hasher.update(seed.to_be_bytes());
    put_name(&mut hasher, who);
    hasher.finalize()
}

/// I and SEED (RFC 8554, appendix A) of a replica's or a client's key, from the seed of the script.
pub(crate) fn seed_of(seed: u64, who: Who) -> OtsSeed
    ensures { result ≡ seed_of seed who }
{
    let digest = digest_of(b"gbft-id", seed, who);
    let mut id = [0u8; 16];
    id.copy_from_slice(&digest[..16]);
    OtsSeed {
        id,
        seed: digest_of(b"gbft-key", seed, who),
    }
}
