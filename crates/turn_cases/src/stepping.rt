//! Workers that step one machine under a turn.

ghost use Rattle.std.specs.Prelude.{◌≡◌, ◌<◌, All, IfOk};
ghost use Rattle.turn_cases.specs.Counting.{IsPass};
ghost use Rattle.turn_cases.specs.Crews.{IsStepperOf};
ghost use Rattle.turn_cases.specs.declared.stepping.Stepper.{Stepper};
ghost use Rattle.stage_workers.specs.declared.look.Post.{Post};

use crate::counter::{Counter, Step};
use crate::running::run;
use crossbeam_utils::Backoff;
use stage_workers::{Crew, Gate, Look, Post};
use std::alloc::{AllocError, Global};
use std::sync::Wait;
use std::thread::Threads;
use turn_lock::{Busy, Pass, Turn, turn};

/// The turn, which all share.
#[derive(Drop)]
pub(crate) struct Steppers {
    turn: Turn<Counter>,
}

/// What one worker owns.
#[derive(Drop)]
pub(crate) struct Stepper {
    worker: u8,
    pass: Pass<Counter>,
    made: u32,
    /// How many steps it is to make.
    steps: u32,
}

impl Crew for Steppers {
    ghost use Rattle.turn_cases.specs.Crews.{IsStepperOf};

    type Hand = Stepper;

    type Worker = u8;

    ghost fits = { IsStepperOf };

    ghost follows = { λ c g h. Unit {0} };

    ghost looked = { λ c g said h. Unit {0} };

    /// Makes a step, as long as one is left. Where another has the machine it rests for a moment, and looks again.
    fn look<R: Wait, G: Gate<u8>>(&self, _rt: &R, hand: &mut Stepper, gate: &G) -> Look {
        gate.pass(hand.worker);
        if hand.made >= hand.steps {
            return Look::Idle;
        }
        let step = Step {
            worker: hand.worker,
            number: hand.made,
        };
        match self.turn.act(&mut hand.pass, step) {
            Ok(Ok(())) => {
                hand.made += 1;
                Look::Moved
            }
            Ok(Err(_)) => Look::NoMemory,
            Err(Busy { call: _, seat: _ }) => {
                Backoff::new().snooze();
                Look::Moved
            }
        }
    }

    ghost reflexive = { λ c h. tt };

    ghost transitive = { λ c f g h p q. tt };
}

/// So many workers make so many steps each. Gives all steps as they stand in the closed history.
pub(crate) fn step_all<R: Threads + Wait + Sync>(
    rt: &R,
    alloc: Global,
    workers: u8,
    steps: u32,
) -> Result<Vec<Step>, AllocError>
    requires { 0 < workers }
{
    let (turn, own) = match turn(alloc, Counter::new(alloc), workers) {
        Ok(made) => made,
        Err((refused, _)) => return Err(refused),
    };
    let mut posts = posts_of(alloc, &turn, own, workers, steps)?;
    let crew = Steppers { turn };
    run(rt, &crew, &mut posts);
    close(crew, posts)
}

/// A post for each worker, the last with the pass that was left.
fn posts_of(
    alloc: Global,
    turn: &Turn<Counter>,
    mut own: Pass<Counter>,
    workers: u8,
    steps: u32,
) -> Result<Vec<Post<Stepper>>, AllocError>
    requires { IsPass turn.now own }
    ensures { IfOk result (λ posts. All (λ (p : Post Stepper). IsPass turn.now p.hand.pass) posts.items) }
{
    let mut posts = Vec::with_capacity(alloc, workers as usize)?;
    for worker in 1..workers {
        let pass = cut(turn, &mut own)?;
        posts.push(post(worker, pass, steps))?;
    }
    posts.push(post(workers, own, steps))?;
    Ok(posts)
}

/// Splits a pass off, where that can be done.
fn cut(turn: &Turn<Counter>, own: &mut Pass<Counter>) -> Result<Pass<Counter>, AllocError>
    requires { IsPass turn.now own.old }
    ensures own { IsPass turn.now own.new }
    ensures new { IfOk result (λ pass. IsPass turn.now pass) }
{
    if turn.may_split(own) {
        Ok(turn.split(own))
    } else {
        Err(AllocError)
    }
}

/// The post of a worker that has made no step.
fn post(worker: u8, pass: Pass<Counter>, steps: u32) -> Post<Stepper>
    ensures { result.hand.pass ≡ pass }
{
    let hand = Stepper {
        worker,
        pass,
        made: 0,
        steps,
    };
    Post {
        hand,
        said: Look::Idle,
    }
}

/// Joins all passes and closes the turn. No step is given where a seat is missing.
fn close(crew: Steppers, mut posts: Vec<Post<Stepper>>) -> Result<Vec<Step>, AllocError>
    requires { All (λ (p : Post Stepper). IsStepperOf crew p.hand) posts.items }
{
    let Steppers { turn } = crew;
    let Some(first) = posts.pop() else {
        return Err(AllocError);
    };
    let mut own = first.hand.pass;
    for _ in 0..posts.len() {
        match posts.pop() {
            None => break,
            Some(other) => turn.join(&mut own, other.hand.pass),
        }
    }
    if !turn.has_every(&own) {
        return Err(AllocError);
    }
    Ok(turn.close(own).into_steps())
}

/// Whether so many steps of this worker are there, each once and in its order.
pub(crate) fn are_all(steps: &[Step], worker: u8, count: u32) -> bool {
    let mut next = 0;
    for step in steps {
        if step.worker == worker {
            if next >= count || step.number != next {
                return false;
            }
            next += 1;
        }
    }
    next == count
}
