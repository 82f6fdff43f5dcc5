//! What the receivers of a share are worth.
ghost use Rattle.std.specs.Prelude.{◌≡◌, ◌+◌, ◌<◌, ◌≤◌, ℕ, Bool, All, length};
ghost use Rattle.fab_base.specs.Quorums.{greatest_faulty, count_members, CorrectMember};
ghost use Rattle.geo_share.specs.Receiving.{receiver, receivers};

/// The law of receivers (GeoBFT): there are f + 1 of them, they are members of the cluster, and no member stands in the list twice. So
/// where no more members are faulty than a cluster of `n` bears, at least one receiver is correct.
pub fn receivers_law()
    ensures number { (n round : ℕ) → length (receivers n round) ≡ greatest_faulty n + 1 }
    ensures members { (n round : ℕ) → 1 ≤ n → All (λ index. index < n) (receivers n round) }
    ensures distinct { (n round j k : ℕ) → j ≤ greatest_faulty n → k ≤ greatest_faulty n → receiver n round j ≡ receiver n round k → j ≡ k }
    ensures correct { (n round : ℕ) (is_faulty : ℕ → Bool) → 1 ≤ n → count_members n is_faulty ≤ greatest_faulty n
        → CorrectMember n is_faulty (receivers n round) }
{}
