//! How often a copy passes.
ghost use Rattle.std.specs.Prelude.{◌≡◌, ◌≤◌, true, length};
ghost use Rattle.std.specs.List.{All};
ghost use Rattle.run_words.specs.Keyed.{is_same};
ghost use Rattle.run_words.specs.Twists.{divides, is_from, names, passes};

use fab_base::ReplicaId;
use fault_script::Loss;

/// Whether two ids are the same.
#[tactic(auto, unfolding(crate::specs::Keyed::is_same))]
fn same(a: ReplicaId, b: ReplicaId) -> bool
    ensures { result ≡ is_same a b }
{
    a.cluster == b.cluster && a.index == b.index
}

/// Whether a line is of copies from this sender: of any but the receiver, where it names none.
fn is_from(line: &Loss, from: ReplicaId, to: ReplicaId) -> bool
    ensures { result ≡ is_from line.now.from from to }
{
    match line.from {
        None => !same(from, to),
        Some(sender) => same(sender, from),
    }
}

/// Whether a line names a copy: number `all_k` of its link, and number `share_k` of the link's certificates where it is one.
fn names(line: &Loss, from: ReplicaId, to: ReplicaId, share: bool, all_k: u64, share_k: u64) -> bool
    requires { 1 ≤ line.now.every }
    ensures { result ≡ names from to share all_k share_k line.now }
{
    let of_link = same(line.to, to) && is_from(line, from, to);
    let counted = if line.share {
        share && share_k % line.every as u64 == 0
    } else {
        all_k % line.every as u64 == 0
    };
    of_link && counted
}

/// How often a copy passes: not at all where a line loses it; else once, and once more for each line that repeats it.
#[tactic(auto, unfolding(crate::specs::Twists::passes))]
pub fn passes(
    losses: &[Loss],
    from: ReplicaId,
    to: ReplicaId,
    share: bool,
    all_k: u64,
    share_k: u64,
) -> u8
    requires few { length losses.now ≤ 64 }
    requires each { All (λ line. 1 ≤ line.every) losses.now }
    ensures { result ≡ passes losses.now from to share all_k share_k }
{
    let mut lost = false;
    let mut again: u8 = 0;
    for line in losses {
        let named = names(line, from, to, share, all_k, share_k);
        lost = lost || (!line.again && named);
        again += u8::from(line.again && named);
    }
    if lost { 0 } else { 1 + again }
}
