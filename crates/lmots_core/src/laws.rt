//! What the definitions promise one another, for every kind.
ghost use Rattle.std.specs.Prelude.{ℕ, ◌≡◌, ◌*◌, ◌^◌, ◌<◌, List, length};
ghost use Rattle.lmots_core.specs.declared.kind.OtsKind.{OtsKind};
ghost use Rattle.lmots_core.specs.declared.seed.OtsSeed.{OtsSeed};
ghost use Rattle.lmots_core.specs.Digits.{checksum_sum, checksum};
ghost use Rattle.lmots_core.specs.OneTime.{public_key, signature, candidate_key};

/// The candidate key of a signature of the message that it signed is the one-time public key
/// (RFC 8554, sections 4.3, 4.5 and 4.6), for every kind, seed, leaf, randomizer and message.
pub fn candidate_is_public_key()
    ensures { (kind : OtsKind) (seed : OtsSeed) (q : ℕ) (randomizer message : List ℕ) → length randomizer ≡ 32
        → candidate_key kind seed.id q message (signature kind seed q randomizer message) ≡ public_key kind seed q }
{}

/// The checksum of a digest fits its 16 bits, before and after it is shifted, for every kind
/// (RFC 8554, section 4.4).
pub fn checksum_fits()
    ensures summed { (kind : OtsKind) (digest : List ℕ) → checksum_sum kind digest < 2 ^ 16 }
    ensures shifted { (kind : OtsKind) (digest : List ℕ) → checksum kind digest < 2 ^ 16 }
{}
