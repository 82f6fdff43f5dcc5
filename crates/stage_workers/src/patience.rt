//! How long a look waits for something to do.

ghost use Rattle.std.specs.Prelude.{◌≡◌, ◌+◌, ◌≤◌, true, false};
ghost use Rattle.stage_workers.specs.declared.patience.TheConstants.{MOST_TRIES};

use crossbeam_utils::Backoff;

/// How often a [`Patience`] says that it is worth another try.
pub const MOST_TRIES: u32 = 400;

/// The tries that a look has left. Between two it spins for a moment, longer from try to try, and then lets other threads have the processor.
#[derive(Drop)]
pub struct Patience {
    backoff: Backoff,
    left: u32,
    ghost bounded: { left ≤ MOST_TRIES },
}

impl Patience {
    /// All tries are left.
    pub fn new() -> Patience
        ensures { result.left ≡ MOST_TRIES }
    {
        Patience {
            backoff: Backoff::new(),
            left: MOST_TRIES,
        }
    }

    /// Waits for a moment and answers true, which uses up a try; or answers false at once where none is left.
    pub fn again(&mut self) -> bool
        ensures used { result ≡ true → self.new.left + 1 ≡ self.old.left }
        ensures spent { result ≡ false → (self.old.left ≡ 0) × (self.new.left ≡ 0) }
    {
        if self.left == 0 {
            return false;
        }
        self.left -= 1;
        self.backoff.snooze();
        true
    }
}

impl Default for Patience {
    fn default() -> Patience {
        Patience::new()
    }
}
