//! A crew is driven: each worker looks in a thread of its own, until it is idle.

ghost use Rattle.std.specs.Prelude.{◌≡◌, ◌≢◌, ℕ, ◌≤◌, List, slice_get, Some, map, All};
ghost use Rattle.stage_workers.specs.Driven.{Driven, told};
ghost use Rattle.stage_workers.specs.declared.look.Look.{Look};
ghost use Rattle.stage_workers.specs.declared.look.Look.TheVariants.{Idle};
ghost use Rattle.stage_workers.specs.declared.look.Post.{Post};

use crate::crew::Crew;
use crate::gate::Gate;
use crate::look::{Look, Post};
use std::sync::Wait;
use std::thread;
use std::thread::Threads;

/// Lets each worker look in a thread of its own until it is idle, has no memory or has looked `quota` times, at least once, and returns when all
/// have stopped. It writes what each came to beside its hand: `NoMemory` where a look answered that, else `Moved` where one did, else `Idle`; then
/// its one look was idle, and the hand is as that look left it. It answers the worst of these, `NoMemory` before `Moved` before `Idle`.
///
/// It waits for the threads that it started, and for whatever the looks wait for. Who calls it again goes on where it stopped.
pub fn drive<C: Crew + Sync, R: Threads + Wait + Sync, G: Gate<C::Worker> + Sync>(
    rt: &R,
    crew: &C,
    posts: &mut [Post<C::Hand>],
    quota: u32,
    gate: &G,
) -> Look
    requires quota { 1 ≤ quota }
    requires fits { All (λ (p : Post C.Hand). C.fits crew.now p.hand) posts.old }
    ensures each { (k : ℕ) (p q : Post C.Hand) → slice_get posts.old k ≡ Some p → slice_get posts.new k ≡ Some q → Driven C.fits C.follows C.looked crew.now p.hand q.said q.hand }
    ensures fits { All (λ (p : Post C.Hand). C.fits crew.now p.hand) posts.new }
    ensures told { result ≡ told Idle (map (λ (p : Post C.Hand). p.said) posts.new) }
{
    let count = posts.len();
    if count > 0 {
        thread::for_each_mut(
            rt,
            posts,
            count,
            &|_at: usize, post: &mut Post<C::Hand>|
                requires { (1 ≤ quota) × C.fits crew.now post.old.hand }
            { look_on(rt, crew, post, quota, gate) },
        );
    }
    sum_up(posts)
}

/// One worker looks until it is idle, has no memory or has looked `quota` times.
fn look_on<C: Crew, R: Wait, G: Gate<C::Worker>>(
    rt: &R,
    crew: &C,
    post: &mut Post<C::Hand>,
    quota: u32,
    gate: &G,
)
    requires quota { 1 ≤ quota }
    requires fits { C.fits crew.now post.old.hand }
    ensures { Driven C.fits C.follows C.looked crew.now post.old.hand post.new.said post.new.hand }
{
    let mut said = Look::Idle;
    for _ in 0..quota {
        match crew.look(rt, &mut post.hand, gate) {
            Look::NoMemory => {
                post.said = Look::NoMemory;
                return;
            }
            Look::Moved => said = Look::Moved,
            Look::Idle => {
                post.said = said;
                return;
            }
        }
    }
    post.said = said;
}

/// The worst of what the workers came to.
fn sum_up<H>(posts: &[Post<H>]) -> Look
    ensures { result ≡ told Idle (map (λ (p : Post H). p.said) posts.now) }
{
    let mut answer = Look::Idle;
    for post in posts {
        answer = match (answer, post.said) {
            (Look::NoMemory, _) => Look::NoMemory,
            (_, Look::NoMemory) => Look::NoMemory,
            (Look::Moved, _) => Look::Moved,
            (_, said) => said,
        };
    }
    answer
}
