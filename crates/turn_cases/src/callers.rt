//! The callers in the heads of `turn_lock` and `stage_link`, in one thread.

use crate::counter::{Counter, Step};
use stage_link::{beside, link, stage_queue};
use std::alloc::{AllocError, Global};
use std::sync::Wait;
use turn_lock::turn;

/// Two seats make a step each.
pub(crate) fn two_seats(alloc: Global) -> Result<Vec<Step>, AllocError> {
    let (turn, mut own) = match turn(alloc, Counter::new(alloc), 2) {
        Ok(made) => made,
        Err((refused, _counter)) => return Err(refused),
    };
    let mut other = turn.split(&mut own);
    let _first = turn.act(
        &mut own,
        Step {
            worker: 1,
            number: 0,
        },
    );
    let _second = turn.act(
        &mut other,
        Step {
            worker: 2,
            number: 0,
        },
    );
    turn.join(&mut own, other);
    Ok(turn.close(own).into_steps())
}

/// Three items are pushed, and one is popped. How many wait then, and the one.
pub(crate) fn one_link(alloc: Global) -> Result<(usize, Option<u64>), AllocError> {
    let (mut sent, mut got) = link(alloc, 4)?;
    let _full = sent.push(7);
    let _full = sent.push(8);
    let _full = sent.push(9);
    let first = got.pop();
    Ok((beside(&mut sent, &mut got), first))
}

/// An item is put, its producer is joined, and it is taken.
pub(crate) fn one_producer<R: Wait>(rt: &R, alloc: Global) -> Result<Option<u64>, AllocError> {
    let (queue, mut taking) = stage_queue(alloc, 4)?;
    let mut putting = queue.split_pass(&mut taking)?;
    let _full = queue.put(rt, &mut putting, 7);
    queue.join_pass(&mut taking, putting);
    Ok(queue.take(rt, &mut taking))
}
