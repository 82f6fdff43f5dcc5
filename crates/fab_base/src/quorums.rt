//! How many replicas of a cluster may be faulty, and how many make a quorum (PBFT).
ghost use Rattle.std.specs.Prelude.{◌≡◌, ℕ, ◌+◌, ◌*◌, ◌%◌, ◌<◌, ◌≤◌, Bool, List};
ghost use Rattle.fab_base.specs.Quorums.{greatest_faulty, quorum_size, AreMembers, IsQuorum, shared_members, count_members, CorrectMember};

/// The greatest number f of faulty members that a cluster of `n` bears: the greatest with n > 3f (PBFT).
pub fn faults(n: u8) -> u8
    requires { 1 ≤ n }
    ensures is { result ≡ greatest_faulty n }
    ensures borne { 3 * result < n }
    ensures greatest { (f : ℕ) → 3 * f < n → f ≤ result }
{
    (n - 1) / 3
}

/// How many of a cluster's `n` members make a quorum: all but the greatest number of faulty ones (PBFT).
pub fn quorum(n: u8) -> u8
    requires { 1 ≤ n }
    ensures is { result ≡ quorum_size n }
    ensures rest { result + greatest_faulty n ≡ n }
{
    n - faults(n)
}

/// The index of the primary of a view in a cluster of `n` members: the view modulo n (PBFT).
pub fn primary(view: u64, n: u8) -> u8
    requires { 1 ≤ n }
    ensures is { result ≡ view % n }
    ensures member { result < n }
{
    (view % n as u64) as u8
}

/// The law of quorums (PBFT): two quorums of `n` members share more of them than may be faulty.
pub fn quorum_law()
    ensures { (n : ℕ) (xs ys : List ℕ) → 1 ≤ n → IsQuorum n xs → IsQuorum n ys
        → AreMembers n (greatest_faulty n + 1) (shared_members xs ys) }
{}

/// Of more members than may be faulty, one at least is correct, where no more are faulty than a cluster of `n` bears (PBFT). So what
/// f + 1 members say a correct one says, and a quorum has a correct member.
pub fn correct_member_law()
    ensures enough { (n : ℕ) (is_faulty : ℕ → Bool) (members : List ℕ) → count_members n is_faulty ≤ greatest_faulty n
        → AreMembers n (greatest_faulty n + 1) members → CorrectMember n is_faulty members }
    ensures quorum { (n : ℕ) (members : List ℕ) → 1 ≤ n → IsQuorum n members → AreMembers n (greatest_faulty n + 1) members }
{}
