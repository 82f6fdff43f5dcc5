//! A crew that is driven until all is done.

ghost use Rattle.std.specs.Prelude.{All};
ghost use Rattle.stage_workers.specs.declared.look.Post.{Post};

use stage_workers::{Crew, Look, NoGate, Post, drive};
use std::sync::Wait;
use std::thread::Threads;

/// How often a worker looks in one call of `drive`.
const QUOTA: u32 = 1_000;

/// How often the crew is driven at most.
const MOST_DRIVES: u32 = 10_000;

/// Drives the crew until all its workers are idle, or one has no memory.
pub(crate) fn run<C: Crew + Sync, R: Threads + Wait + Sync>(
    rt: &R,
    crew: &C,
    posts: &mut [Post<C::Hand>],
)
    requires { All (λ (p : Post C.Hand). C.fits crew.now p.hand) posts.old }
    ensures { All (λ (p : Post C.Hand). C.fits crew.now p.hand) posts.new }
{
    for _ in 0..MOST_DRIVES {
        if drive(rt, crew, posts, QUOTA, &NoGate) != Look::Moved {
            return;
        }
    }
}
