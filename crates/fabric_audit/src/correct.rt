//! Which replicas are correct.
ghost use Rattle.std.specs.Prelude.{◌≡◌};
ghost use Rattle.run_worlds.specs.Worlds.{is_correct_one};

use run_words::Trace;

/// Whether the replica that left this trace is correct.
pub(crate) fn is_correct(trace: &Trace) -> bool
    ensures { result ≡ is_correct_one trace.now }
{
    trace.fault.is_none()
}
