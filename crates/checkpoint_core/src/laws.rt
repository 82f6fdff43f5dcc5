//! What the words of the contracts mean.
ghost use Rattle.std.specs.Prelude.{◌≡◌, ◌↔◌, ◌≤◌, ◌<◌, ℕ, List, length, map, All, Contains, Some};
ghost use Rattle.fab_base.specs.Quorums.{quorum_size, IsRisingFrom};
ghost use Rattle.fab_base.specs.declared.limits.TheConstants.{MOST_MEMBERS};
ghost use Rattle.fab_base.specs.declared.ids.Hash32.{Hash32};
ghost use Rattle.fab_base.specs.declared.messages.StableVote.{StableVote};
ghost use Rattle.checkpoint_core.specs.Checkpoints.{Checkpoints, no_checkpoints, AreCheckpoints, after_vote, stable, HasQuorum, proof_of, pruned};

/// The law of stable rounds (PBFT). A round is stable with a digest exactly where a quorum of distinct members agrees on it (`is`), and
/// no two digests have a quorum for one round (`one`). A stable round stays so, with its digest, whatever is heard (`stays`).
pub fn stable_law()
    ensures is { (c : Checkpoints) (round : ℕ) (digest : Hash32) → AreCheckpoints c → (stable c round ≡ Some digest) ↔ HasQuorum c round digest }
    ensures one { (c : Checkpoints) (round : ℕ) (d e : Hash32) → AreCheckpoints c → HasQuorum c round d → HasQuorum c round e → d ≡ e }
    ensures stays { (c : Checkpoints) (v : StableVote) (round : ℕ) (digest : Hash32) → AreCheckpoints c → v.signer.index < c.members
        → stable c round ≡ Some digest → stable (after_vote c v) round ≡ Some digest }
{}

/// The law of proofs (PBFT). The proof of a stable round has as many Checkpoints as make a quorum (`full`), of distinct members by rising
/// index (`rises`). Each is one that counts (`counts`), for the round, with the digest with which it is stable (`agrees`).
pub fn proof_law()
    ensures full { (c : Checkpoints) (round : ℕ) (votes : List StableVote) → AreCheckpoints c → proof_of c round ≡ Some votes
        → length votes ≡ quorum_size c.members }
    ensures rises { (c : Checkpoints) (round : ℕ) (votes : List StableVote) → AreCheckpoints c → proof_of c round ≡ Some votes
        → IsRisingFrom 0 c.members (map (λ v. v.signer.index) votes) }
    ensures counts { (c : Checkpoints) (round : ℕ) (votes : List StableVote) → proof_of c round ≡ Some votes → All (λ v. Contains c.votes v) votes }
    ensures agrees { (c : Checkpoints) (round : ℕ) (votes : List StableVote) → proof_of c round ≡ Some votes
        → All (λ v. (v.round ≡ round) × (stable c round ≡ Some v.digest)) votes }
{}

/// What counts is of members, for rounds above the low mark, and no two are of one member for one round: so it is at first (`none`), and
/// hearing a member's Checkpoint (`vote`) and letting go (`prune`) keep it so.
pub fn kept_law()
    ensures none { (n : ℕ) → 1 ≤ n → n ≤ MOST_MEMBERS → AreCheckpoints (no_checkpoints n) }
    ensures vote { (c : Checkpoints) (v : StableVote) → AreCheckpoints c → v.signer.index < c.members → AreCheckpoints (after_vote c v) }
    ensures prune { (c : Checkpoints) (round : ℕ) → AreCheckpoints c → AreCheckpoints (pruned c round) }
{}

/// The law of letting go: of the rounds above the mark those stay stable that were (`stable`), with the same proof (`proof`).
pub fn pruned_law()
    ensures stable { (c : Checkpoints) (low round : ℕ) → c.low < round → low < round → stable (pruned c low) round ≡ stable c round }
    ensures proof { (c : Checkpoints) (low round : ℕ) → c.low < round → low < round → proof_of (pruned c low) round ≡ proof_of c round }
{}
