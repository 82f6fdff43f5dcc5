//! The making of `Members`.
ghost use Rattle.std.specs.Prelude.{◌≡◌, IfOk};
ghost use Rattle.fab_base.specs.Limits.{IsWithinLimits};

use crate::NoMemory;
use crate::roster::Members;
use fab_rows::Rows;
use std::alloc::Global;

/// The members of a fabric: the size of each cluster, the home cluster of each client, the window, the checkpoint interval and the
/// greatest number of requests of a batch. The caller keeps the limits of a fabric. It fails only where memory is refused.
pub fn members(
    alloc: Global,
    sizes: &[u8],
    homes: &[u8],
    window: u8,
    interval: u8,
    batch: u8,
) -> Result<Members, NoMemory>
    requires { IsWithinLimits (record { sizes = sizes.now; homes = homes.now; window = window; interval = interval; batch = batch }) }
    ensures { IfOk result (λ m. m ≡ record { sizes = sizes.now; homes = homes.now; window = window; interval = interval; batch = batch }) }
{
    let sizes = Rows::from_vec(sizes.to_vec(alloc)?);
    let homes = Rows::from_vec(homes.to_vec(alloc)?);
    Members::new(alloc, sizes, homes, window, interval, batch)
}
