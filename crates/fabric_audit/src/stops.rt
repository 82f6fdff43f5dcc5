//! Why the audit stops.
ghost use Rattle.std.specs.Prelude.{◌≡◌};

use fab_base::NoMemory;
use run_words::Evidence;

/// Why the audit goes no further.
#[derive(Drop)]
pub(crate) enum Stop {
    /// There is evidence.
    Found(Evidence),
    /// Memory was refused.
    NoMemory,
}

impl From<NoMemory> for Stop {
    ghost use Rattle.fabric_audit.specs.declared.stops.Stop.{Stop};

    ghost from_gives = { λ _ e. e ≡ Stop.NoMemory };

    fn from(_refused: NoMemory) -> Stop {
        Stop::NoMemory
    }
}
