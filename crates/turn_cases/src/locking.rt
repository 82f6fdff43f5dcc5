//! The same steps under a mutex of the kit, for `bench/turn.sh` to time beside the turn.

use crate::counter::{Counter, Step};
use std::alloc::{AllocError, Global};
use std::sync::{Mutex, Wait};
use std::thread;
use std::thread::Threads;
use turn_lock::Machine;

/// So many workers make so many steps each, one at a time.
pub(crate) fn lock_all<R: Threads + Wait + Sync>(
    rt: &R,
    alloc: Global,
    workers: u8,
    steps: u32,
) -> Result<usize, AllocError> {
    let counter = Mutex::new(Counter::new(alloc));
    let mut hands: Vec<u8> = Vec::with_capacity(alloc, workers as usize)?;
    for worker in 0..workers {
        hands.push(worker)?;
    }
    let count = hands.len();
    if count > 0 {
        thread::for_each_mut(
            rt,
            &mut hands,
            count,
            &|_at: usize, worker: &mut u8| { step_on(rt, &counter, *worker, steps) },
        );
    }
    let counter = counter.lock(rt);
    Ok(counter.count())
}

/// One worker makes its steps.
fn step_on<R: Wait>(rt: &R, counter: &Mutex<Counter>, worker: u8, steps: u32) {
    for number in 0..steps {
        let mut counter = counter.lock(rt);
        let _made = counter.play(Step { worker, number });
    }
}
