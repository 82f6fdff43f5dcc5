//! A machine that counts steps: its journal has each step that it had room for.

ghost use Rattle.std.specs.Prelude.{◌≡◌, List, [], length};

use std::alloc::{AllocError, Global};
use turn_lock::Machine;

/// A step of a worker.
#[derive(Clone, Copy, Debug, Drop)]
pub(crate) struct Step {
    /// The worker, from 1.
    pub(crate) worker: u8,
    /// Which of its steps it is, from 0.
    pub(crate) number: u32,
}

/// The steps that were made, the oldest first.
#[derive(Drop)]
pub(crate) struct Counter {
    steps: Vec<Step>,
}

impl Counter {
    /// No step was made.
    pub(crate) fn new(alloc: Global) -> Counter
        ensures { result.steps.items ≡ [] }
    {
        Counter {
            steps: Vec::new(alloc),
        }
    }

    /// How many steps were made.
    pub(crate) fn count(&self) -> usize {
        self.steps.len()
    }

    /// All steps.
    pub(crate) fn into_steps(self) -> Vec<Step>
        ensures { result.items ≡ self.steps.items }
    {
        self.steps
    }
}

impl Machine for Counter {
    ghost use Rattle.turn_cases.specs.Counting.{steps_of, Stepped};

    type Call = Step;

    type Answer = Result<(), AllocError>;

    type Entry = Step;

    type Made = ();

    ghost made = { λ c. tt };

    ghost journal = { steps_of };

    ghost takes = { λ made call. Unit {0} };

    ghost plays = { λ made. Stepped };

    fn entries(&self) -> u64 {
        self.steps.len() as u64
    }

    fn play(&mut self, call: Step) -> Result<(), AllocError> {
        match self.steps.push(call) {
            Ok(()) => Ok(()),
            Err(_) => Err(AllocError),
        }
    }
}
