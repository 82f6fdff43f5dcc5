//! Threads over a turn, a stage queue and a gate, each run once: what no contract can say of them.
//!
//! - The callers that stand in the heads of `turn_lock` and `stage_link`, in one thread (`callers`).
//! - Two workers wait for each other at a gate (`meeting`): each must see that the other has begun, so they run at once.
//! - Eight workers step one machine under a turn (`stepping`), each 100 times. Once the turn is closed, the journal of the machine (`counter`) has each
//!   step of each worker once, and a worker's steps in its order.
//! - Three producers put 50 items each into a queue with room for eight, and one consumer takes them (`passing`): each item comes once, and those of
//!   a producer in its order.
//!
//! What is written is the same whatever the threads do, and was counted by hand.
//!
//! With the words JOB WORKERS TIMES it does one job for `bench/turn.sh` to time, and writes how much was done: `turn` or `mutex` (so many workers make so many
//! steps each under a turn, or under a mutex of the kit), `queue` (so many producers put so many items each) or `empty` (so many looks at a
//! queue in which there is nothing, by one worker).
#![tactic(auto)]

ghost use Rattle.std.specs.Prelude.{◌≡◌};

mod callers;
mod counter;
mod locking;
mod meeting;
mod passing;
mod running;
mod stepping;

use std::alloc::Global;
use std::sync::Wait;
use std::thread::Threads;
use std::{env, io};

/// How many workers step where no words are given.
const WORKERS: u8 = 8;

/// How many steps each makes.
const STEPS: u32 = 100;

/// How many producers there are.
const PRODUCERS: u8 = 3;

/// How many items each puts.
const ITEMS: u32 = 50;

fn main(rt: HostRuntime) -> anyhow::Result<()> {
    let words: Vec<String> = env::args(&rt)?.collect(rt.alloc())?;
    match words.as_slice() {
        [_] => Ok(show(&rt, rt.alloc())?),
        [_, job, workers, times] => {
            let done = work(
                &rt,
                rt.alloc(),
                job.as_str(),
                workers.parse()?,
                times.parse()?,
            )?;
            println!(rt; "{done}")?;
            Ok(())
        }
        _ => anyhow::bail!("usage: turn_cases [JOB WORKERS TIMES]"),
    }
}

/// One job, and how much was done.
fn work<R: Threads + Wait + Sync>(
    rt: &R,
    alloc: Global,
    job: &str,
    workers: u8,
    times: u32,
) -> anyhow::Result<usize> {
    if workers == 0 {
        anyhow::bail!("no worker, no work");
    }
    Ok(match job {
        "turn" => stepping::step_all(rt, alloc, workers, times)?.len(),
        "mutex" => locking::lock_all(rt, alloc, workers, times)?,
        "queue" => passing::pass_all(rt, alloc, workers, times)?.len(),
        "empty" => passing::look_at_nothing(rt, alloc, times)?,
        _ => anyhow::bail!("the jobs are turn, mutex, queue and empty"),
    })
}

/// All cases.
fn show<R: Threads + Wait + Sync + Print>(rt: &R, alloc: Global) -> io::Result<()> {
    println!(rt;
        "two seats in one thread: {} entries",
        callers::two_seats(alloc)?.len()
    )?;
    let (waits, first) = callers::one_link(alloc)?;
    println!(rt; "a link: {first:?} is popped, {waits} wait")?;
    println!(rt; "a queue: {:?} is taken", callers::one_producer(rt, alloc)?)?;
    println!(rt; "two workers at a gate")?;
    let met = meeting::meet(rt);
    println!(rt; "the first saw the second begin: {}", met.0)?;
    println!(rt; "the second saw the first begin: {}", met.1)?;
    let steps = stepping::step_all(rt, alloc, WORKERS, STEPS)?;
    println!(rt;
        "{WORKERS} workers with {STEPS} steps each: {} entries in the closed history",
        steps.len()
    )?;
    for worker in 1..WORKERS + 1 {
        let all = stepping::are_all(&steps, worker, STEPS);
        println!(rt; "worker {worker}: {STEPS} steps, each once and in order: {all}")?;
    }
    let items = passing::pass_all(rt, alloc, PRODUCERS, ITEMS)?;
    println!(rt;
        "{PRODUCERS} producers with {ITEMS} items each: {} taken",
        items.len()
    )?;
    for producer in 1..PRODUCERS + 1 {
        let all = passing::are_all(&items, producer, ITEMS);
        println!(rt; "producer {producer}: {ITEMS} items, each once and in order: {all}")?;
    }
    Ok(())
}
