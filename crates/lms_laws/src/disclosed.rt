//! What a signer gives away.
ghost use Rattle.std.specs.Prelude.{ℕ, ◌≡◌, ◌-◌, ◌<◌, ◌≤◌, List, length, Option, Some, None};
ghost use Rattle.sha2.specs.Sha256.{sha256};
ghost use Rattle.lmots_core.specs.Parameters.{chain_count};
ghost use Rattle.lmots_core.specs.Chains.{chain, joined};
ghost use Rattle.lmots_core.specs.OneTime.{public_key, value_of};
ghost use Rattle.lms_tree.specs.Keys.{TreeKey};
ghost use Rattle.lms_tree.specs.Signatures.{tree_signature};
ghost use Rattle.lms_tree.specs.Verdict.{ots_part};
ghost use Rattle.lms_laws.specs.Hashed.{hashed_ends};
ghost use Rattle.lms_laws.specs.Signed.{Signing, lowest_shown};
ghost use Rattle.lms_laws.specs.Forgery.{own_value, GivesCollision, FollowsFromGiven};

/// What "given away" means where these laws speak of the lowest place of a chain. Where the leaf signed, the value at that place is the
/// one that its signature shows (`signed`); where it signed nothing, it is the chain's end, which the leaf's public key is the hash of
/// (`unsigned`). Whoever has the value at a place can compute those at all later places (`onward`), and needs no seed for it; so both
/// strings of a collision along a chain can be computed from what was shown (`collision`).
pub fn disclosed_law()
    ensures signed { (key : TreeKey) (q i : ℕ) (signing : Signing) → length signing.randomizer ≡ 32 → i < chain_count key.ots
        → value_of (ots_part key.ots (tree_signature key q signing.randomizer signing.content)) i ≡ own_value key q i (lowest_shown key q i (Some signing)) }
    ensures unsigned { (key : TreeKey) (q : ℕ)
        → public_key key.ots key.seed q ≡ sha256 (hashed_ends key.seed.id q (joined (λ i. own_value key q i (lowest_shown key q i None)) (chain_count key.ots))) }
    ensures onward { (key : TreeKey) (q i from to : ℕ) → from ≤ to
        → own_value key q i to ≡ chain key.seed.id q i from (to - from) (own_value key q i from) }
    ensures collision { (key : TreeKey) (record_of : ℕ → Option Signing) (content signature : List ℕ)
        → (given : GivesCollision key record_of content signature) → FollowsFromGiven key record_of content signature given }
{}
