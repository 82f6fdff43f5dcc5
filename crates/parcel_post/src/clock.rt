//! The clock.
ghost use Rattle.std.specs.Prelude.{◌≡◌, IfOk, OnErr};
ghost use Rattle.run_words.specs.Journal.{tick_by};
ghost use Rattle.parcel_post.specs.Ticking.{IsLastTime};

use fab_base::NoMemory;
use run_words::Origin;

/// A replica's clock after it hears from an origin (Lamport's rule, in the form that counts hops): the clock or one more than the time of
/// what was heard, whichever is greater. A client has no time and leaves the clock as it is. It takes no memory. It fails exactly where the
/// origin is a replica whose time is 2^64 - 1, the last value of a `u64`: no clock is after that, and it is answered as want of memory.
pub fn ticked(clock: u64, origin: Origin) -> Result<u64, NoMemory>
    ensures ticks { IfOk result (λ now. now ≡ tick_by clock origin) }
    ensures err { OnErr result (IsLastTime origin) }
{
    match origin {
        Origin::Client(_) => Ok(clock),
        Origin::Replica { time, .. } => match time.checked_add(1) {
            Some(after) => Ok(clock.max(after)),
            None => Err(NoMemory),
        },
    }
}
