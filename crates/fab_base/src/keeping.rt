//! Whether a fabric keeps its limits.
ghost use Rattle.std.specs.Prelude.{◌≡◌, ◌≤◌, length, sum, IsTrue};
ghost use Rattle.fab_base.specs.Limits.{IsWithinLimits};

use crate::limits::{
    MOST_CLIENTS, MOST_CLUSTERS, MOST_MEMBERS, MOST_REPLICAS, MOST_REQUESTS, MOST_SLOTS,
};

/// Whether a fabric may have clusters of these sizes, clients of these homes, and these settings: exactly what [`members`](crate::members)
/// asks of its caller (ours).
pub fn is_within_limits(sizes: &[u8], homes: &[u8], window: u8, interval: u8, batch: u8) -> bool
    ensures kept { IsTrue result → IsWithinLimits (record { sizes = sizes.now; homes = homes.now; window = window; interval = interval; batch = batch }) }
    ensures only { IsWithinLimits (record { sizes = sizes.now; homes = homes.now; window = window; interval = interval; batch = batch }) → IsTrue result }
{
    sizes.len() <= MOST_CLUSTERS as usize
        && sizes.iter().all(|size| 1 <= *size && *size <= MOST_MEMBERS)
        && replicas(sizes) <= MOST_REPLICAS as u64
        && homes.len() <= MOST_CLIENTS as usize
        && homes
            .iter()
            .all(|home| 1 <= *home && *home as usize <= sizes.len())
        && 1 <= window
        && window <= MOST_SLOTS
        && 1 <= interval
        && interval <= window
        && 1 <= batch
        && batch <= MOST_REQUESTS
}

/// How many replicas there are in all clusters.
fn replicas(sizes: &[u8]) -> u64
    requires { length sizes.now ≤ MOST_CLUSTERS }
    ensures { result ≡ sum sizes.now }
{
    sizes.iter().map(|size| *size as u64).sum()
}
