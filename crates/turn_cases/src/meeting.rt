//! Two workers that wait for each other at a gate.

ghost use Rattle.std.specs.Prelude.{◌≡◌};

use stage_workers::{Crew, Gate, Look, Post, drive};
use std::sync::Wait;
use std::sync::atomic::{AtomicBool, Ordering};
use std::thread;
use std::thread::Threads;

/// How often a worker looks for the other before it gives up.
const MOST_LOOKS: u32 = 20_000_000;

/// One of the two workers.
#[derive(Clone, Copy, Debug, Drop)]
enum Side {
    First,
    Second,
}

/// What one of the two has done.
#[derive(Drop)]
struct Mark {
    begun: AtomicBool,
    saw: AtomicBool,
}

impl Mark {
    fn new() -> Mark {
        Mark {
            begun: AtomicBool::new(false),
            saw: AtomicBool::new(false),
        }
    }

    /// Begins, and waits for a while until the other has.
    fn wait_for(&self, other: &Mark) {
        self.begun.store(true, Ordering::SeqCst);
        for _ in 0..MOST_LOOKS {
            if other.begun.load(Ordering::SeqCst) {
                self.saw.store(true, Ordering::SeqCst);
                return;
            }
            thread::yield_now();
        }
    }

    /// Whether it saw the other begin.
    fn saw(&self) -> bool {
        self.saw.load(Ordering::SeqCst)
    }
}

/// The gate that lets a worker through once the other has come to it.
#[derive(Drop)]
struct Meeting {
    first: Mark,
    second: Mark,
}

impl Gate<Side> for Meeting {
    fn pass(&self, worker: Side) {
        match worker {
            Side::First => self.first.wait_for(&self.second),
            Side::Second => self.second.wait_for(&self.first),
        }
    }
}

/// Two workers that do nothing but pass the gate.
struct Pair;

impl Crew for Pair {
    type Hand = Side;

    type Worker = Side;

    ghost fits = { λ c h. Unit {0} };

    ghost follows = { λ c g h. Unit {0} };

    ghost looked = { λ c g said h. Unit {0} };

    fn look<R: Wait, G: Gate<Side>>(&self, _rt: &R, hand: &mut Side, gate: &G) -> Look {
        gate.pass(*hand);
        Look::Idle
    }

    ghost reflexive = { λ c h. tt };

    ghost transitive = { λ c f g h p q. tt };
}

/// Whether the first saw the second begin, and the second the first.
pub(crate) fn meet<R: Threads + Wait + Sync>(rt: &R) -> (bool, bool) {
    let meeting = Meeting {
        first: Mark::new(),
        second: Mark::new(),
    };
    let mut posts = [
        Post {
            hand: Side::First,
            said: Look::Idle,
        },
        Post {
            hand: Side::Second,
            said: Look::Idle,
        },
    ];
    drive(rt, &Pair, &mut posts, 1, &meeting);
    (meeting.first.saw(), meeting.second.saw())
}
