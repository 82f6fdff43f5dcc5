//! The chains of one leaf, started and run four at a time (RFC 8554, sections 4.3, 4.5 and 4.6, and
//! appendix A).
//!
//! The values of the chains stand in a table, as words, with the place and the goal of each. A step is
//! computed for four chains, and is written where it takes a chain on towards its goal. What the table
//! says holds whichever chains are stepped; so what is left to choose is that no lane stands idle.
ghost use Rattle.std.specs.Prelude.{◌≡◌, ℕ, List, ◌+◌, ◌-◌, ◌*◌, ◌<◌, ◌≤◌, length, slice_index};
ghost use Rattle.lmots_core.specs.Chains.{chain_start, chain};
ghost use Rattle.sha2.specs.Sha256.{digest_bytes};
ghost use Rattle.lmots_core.specs.Running.{value_in, AreOn, IsThere, IsNext};

use crate::seed::OtsSeed;
use crate::steps::step4;
use sha_lanes::words_of;

// Where the chains of a leaf start, derived from the seed.
pub(crate) fn starts(seed: &OtsSeed, q: u32, values: &mut [[u32; 8]])
    requires some { 4 ≤ length values.old }
    requires few { length values.old ≤ 65536 }
    ensures long { length values.new ≡ length values.old }
    ensures starts { (i : ℕ) → i < length values.old → value_in values.new i ≡ chain_start seed.now q i }
{
    let start = words_of(&seed.seed);
    'starts: for g in 0..(values.len() + 3) / 4 {
        let at = (4 * g).min(values.len() - 4);
        let next = step4(
            &seed.id,
            q,
            [at as u16, (at + 1) as u16, (at + 2) as u16, (at + 3) as u16],
            [0xff, 0xff, 0xff, 0xff],
            &[start, start, start, start],
        );
        values[at] = next[0];
        values[at + 1] = next[1];
        values[at + 2] = next[2];
        values[at + 3] = next[3];
    }
}

// Sets chain `at` on to place `j + 1`, unless it is elsewhere than at `j` or has come to its goal.
#[inline(always)]
fn commit(
    values: &mut [[u32; 8]],
    places: &mut [u8],
    goals: &[u8],
    at: usize,
    j: u8,
    value: &[u32; 8],
)
    requires at { at < length values.old }
    requires places { length places.old ≡ length values.old }
    requires goals { length goals.now ≡ length values.old }
    ensures values { length values.new ≡ length values.old }
    ensures places { length places.new ≡ length places.old }
    ensures on { (id : List ℕ) (q : ℕ) (from : List ℕ) (start : List (List ℕ)) → IsNext id q from start at j value.now
        → AreOn id q from start goals.now places.old values.old (length values.old)
        → AreOn id q from start goals.now places.new values.new (length values.old) }
{
    if places[at] == j && j < goals[at] {
        values[at] = *value;
        places[at] = j + 1;
    }
}

// One step of the four chains `at`.
#[inline(always)]
fn advance(
    id: &[u8; 16],
    q: u32,
    values: &mut [[u32; 8]],
    places: &mut [u8],
    goals: &[u8],
    at: &[usize; 4],
)
    requires at { (k : ℕ) → k < 4 → slice_index at.now k < length values.old }
    requires few { length values.old ≤ 65536 }
    requires places { length places.old ≡ length values.old }
    requires goals { length goals.now ≡ length values.old }
    ensures values { length values.new ≡ length values.old }
    ensures places { length places.new ≡ length places.old }
    ensures on { (from : List ℕ) (start : List (List ℕ)) → AreOn id.now q from start goals.now places.old values.old (length values.old)
        → AreOn id.now q from start goals.now places.new values.new (length values.old) }
{
    let [a, b, c, d] = *at;
    let [i, j, k, l] = [places[a], places[b], places[c], places[d]];
    let next = step4(
        id,
        q,
        [a as u16, b as u16, c as u16, d as u16],
        [i, j, k, l],
        &[values[a], values[b], values[c], values[d]],
    );
    commit(values, places, goals, a, i, &next[0]);
    commit(values, places, goals, b, j, &next[1]);
    commit(values, places, goals, c, k, &next[2]);
    commit(values, places, goals, d, l, &next[3]);
}

// Gives lane `k` another chain if its own has come to its goal and there is one left.
#[inline(always)]
fn refill(places: &[u8], goals: &[u8], at: usize, next: usize) -> (usize, usize)
    requires at { at < length places.now }
    requires next { next ≤ length places.now }
    requires goals { length goals.now ≡ length places.now }
    ensures at { result.0 < length places.now }
    ensures next { result.1 ≤ length places.now }
{
    if places[at] == goals[at] && next < places.len() {
        (next, next + 1)
    } else {
        (at, next)
    }
}

// Runs the chains in four lanes: a lane that comes to a goal takes the next chain.
fn run_lanes(id: &[u8; 16], q: u32, values: &mut [[u32; 8]], places: &mut [u8], goals: &[u8])
    requires some { 4 ≤ length values.old }
    requires few { length values.old ≤ 65536 }
    requires places { length places.old ≡ length values.old }
    requires goals { length goals.now ≡ length values.old }
    ensures values { length values.new ≡ length values.old }
    ensures places { length places.new ≡ length places.old }
    ensures on { (from : List ℕ) (start : List (List ℕ)) → AreOn id.now q from start goals.now places.old values.old (length values.old)
        → AreOn id.now q from start goals.now places.new values.new (length values.old) }
{
    let (mut a, mut b, mut c, mut d) = (0, 1, 2, 3);
    let mut next = 4;
    'turns: for _ in 0..places.len() * 256 {
        (a, next) = refill(places, goals, a, next);
        (b, next) = refill(places, goals, b, next);
        (c, next) = refill(places, goals, c, next);
        (d, next) = refill(places, goals, d, next);
        let is_done = next == places.len()
            && places[a] == goals[a]
            && places[b] == goals[b]
            && places[c] == goals[c]
            && places[d] == goals[d];
        if is_done {
            break;
        }
        advance(id, q, values, places, goals, &[a, b, c, d]);
    }
}

// One chain alone, from `from` to `to`.
fn chain(id: &[u8; 16], q: u32, i: u16, from: u8, to: u8, value: [u32; 8]) -> [u32; 8]
    requires { from ≤ to }
    ensures { digest_bytes result 8 ≡ chain id.now q i from (to - from) (digest_bytes value 8) }
{
    let mut value = value;
    for j in from..to {
        value = step4(
            id,
            q,
            [i, i, i, i],
            [j, j, j, j],
            &[value, value, value, value],
        )[0];
    }
    value
}

// Runs each chain of leaf `q` from its place to its goal, four at a time.
pub(crate) fn run(id: &[u8; 16], q: u32, values: &mut [[u32; 8]], places: &mut [u8], goals: &[u8])
    requires some { 4 ≤ length values.old }
    requires few { length values.old ≤ 65536 }
    requires places { length places.old ≡ length values.old }
    requires goals { length goals.now ≡ length values.old }
    requires before { (i : ℕ) → i < length values.old → slice_index places.old i ≤ slice_index goals.now i }
    ensures long { length values.new ≡ length values.old }
    ensures there { (i : ℕ) → i < length values.old → IsThere id.now q places.old values.old goals.now values.new i }
{
    run_lanes(id, q, values, places, goals);
    // Each chain is there by now, but that is proved by running on those that are not.
    'rest: for i in 0..values.len() {
        values[i] = chain(id, q, i as u16, places[i], goals[i], values[i]);
    }
}
