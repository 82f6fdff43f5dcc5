//! Who takes part: the clusters, their sizes, the homes of the clients, and the settings that all replicas share.
ghost use Rattle.std.specs.Prelude.{◌≡◌, ◌↔◌, ◌<◌, ◌≤◌, length, IfOk, IsTrue, slice_index};

use crate::NoMemory;
use crate::ids::{ClientId, ReplicaId, Who};
use crate::limits::{MOST_CLIENTS, MOST_MEMBERS, MOST_REQUESTS, MOST_SLOTS};
use crate::listing::put_members;
use fab_rows::{Bytes, Rows};
use std::alloc::Global;
use std::marker::Model;
use std::sync::Arc;

/// What a `Members` is a handle to. It never changes.
#[derive(Debug, Drop)]
pub struct Contents {
    sizes: Bytes,
    homes: Bytes,
    window: u8,
    interval: u8,
    batch: u8,
}

impl Model for Contents {
    ghost use Rattle.fab_base.specs.Limits.{Roster, IsWithinLimits};

    ghost Value = { Roster };

    ghost view = { λ c. record { sizes = c.sizes; homes = c.homes; window = c.window; interval = c.interval; batch = c.batch } };

    ghost invariant = { λ c. IsWithinLimits (record { sizes = c.sizes; homes = c.homes; window = c.window; interval = c.interval; batch = c.batch }) };
}

/// A handle to the members of a fabric and their settings, within the limits of a fabric: 0 to 6 clusters of 1 to 10 replicas, 30
/// replicas in all, 64 clients, a window of 1 to 16 slots, a checkpoint each 1 to window rounds, 1 to 8 requests a batch.
#[derive(Debug, Drop)]
pub struct Members {
    inner: Arc<Contents, Global>,
}

impl Model for Members {
    ghost use Rattle.std.specs.Arc.{arc_value};
    ghost use Rattle.fab_base.specs.Limits.{Roster};

    ghost Value = { Roster };

    ghost view = { λ m. arc_value m.inner };
}

impl Members {
    ghost use Rattle.fab_base.specs.Limits.{Roster, IsWithinLimits};
    ghost use Rattle.fab_base.specs.Roster.{is_cluster, size_of, is_client, home_of, members_of, takes_part};

    /// A handle to these contents, which it takes memory for.
    pub(crate) fn new(
        alloc: Global,
        sizes: Bytes,
        homes: Bytes,
        window: u8,
        interval: u8,
        batch: u8,
    ) -> Result<Members, NoMemory>
        requires { IsWithinLimits (record { sizes = sizes; homes = homes; window = window; interval = interval; batch = batch }) }
        ensures { IfOk result (λ m. m ≡ record { sizes = sizes; homes = homes; window = window; interval = interval; batch = batch }) }
    {
        let contents = Contents {
            sizes,
            homes,
            window,
            interval,
            batch,
        };
        let inner = Arc::new(alloc, contents)?;
        Ok(Members { inner })
    }

    /// Another handle to the same members. It fails only where memory is refused.
    pub fn share(&self) -> Result<Members, NoMemory>
        ensures { IfOk result (λ m. m ≡ self.now) }
    {
        Ok(Members {
            inner: Arc::try_clone(&self.inner)?,
        })
    }

    /// Whether both are handles to equal members and settings, by value. Takes no memory.
    pub fn is_same(&self, other: &Members) -> bool
        ensures { IsTrue result ↔ (self.now ≡ other.now) }
    {
        let (contents, others) = (&*self.inner, &*other.inner);
        contents.sizes.as_slice() == others.sizes.as_slice()
            && contents.homes.as_slice() == others.homes.as_slice()
            && contents.window == others.window
            && contents.interval == others.interval
            && contents.batch == others.batch
    }

    /// The number of clusters, from 0 to 6. They are numbered from 1.
    pub fn clusters(&self) -> u8
        ensures is { result ≡ length self.now.sizes }
        ensures limits { IsWithinLimits self.now }
    {
        let contents = &*self.inner;
        contents.sizes.len() as u8
    }

    /// The number of replicas of a cluster, from 1 to 10.
    pub fn size(&self, cluster: u8) -> u8
        requires { IsTrue (is_cluster self.now cluster) }
        ensures is { result ≡ size_of self.now cluster }
        ensures limits { (1 ≤ result) × (result ≤ MOST_MEMBERS) }
    {
        let contents = &*self.inner;
        contents.sizes.as_slice()[cluster as usize - 1]
    }

    /// The members of a cluster, by rising index: 1 to 10. It fails only where memory is refused.
    pub fn replicas(&self, alloc: Global, cluster: u8) -> Result<Rows<ReplicaId>, NoMemory>
        requires { IsTrue (is_cluster self.now cluster) }
        ensures { IfOk result (λ replicas. replicas ≡ members_of cluster (size_of self.now cluster)) }
    {
        let mut replicas = Rows::new(alloc);
        put_members(&mut replicas, cluster, self.size(cluster))?;
        Ok(replicas)
    }

    /// The number of clients, from 0 to 64. They are numbered from 0.
    pub fn clients(&self) -> u8
        ensures is { result ≡ length self.now.homes }
        ensures limits { result ≤ MOST_CLIENTS }
    {
        let contents = &*self.inner;
        contents.homes.len() as u8
    }

    /// The home cluster of a client.
    pub fn home(&self, client: ClientId) -> u8
        requires { IsTrue (is_client self.now client) }
        ensures is { result ≡ home_of self.now client }
        ensures member { IsTrue (is_cluster self.now result) }
    {
        let contents = &*self.inner;
        contents.homes.as_slice()[client.number as usize]
    }

    /// Whether the replica or client takes part.
    pub fn has(&self, who: Who) -> bool
        ensures { result ≡ takes_part self.now who }
    {
        let contents = &*self.inner;
        match who {
            Who::Replica(id) => {
                id.cluster >= 1
                    && (id.cluster as usize) <= contents.sizes.len()
                    && id.index < contents.sizes.as_slice()[id.cluster as usize - 1]
            }
            Who::Client(id) => (id.number as usize) < contents.homes.len(),
        }
    }

    /// How many slots above the low mark are open at once: 1 to 16.
    pub fn window(&self) -> u8
        ensures is { result ≡ self.now.window }
        ensures limits { (1 ≤ result) × (result ≤ MOST_SLOTS) }
    {
        let contents = &*self.inner;
        contents.window
    }

    /// Each so many rounds there is a checkpoint: 1 to the window.
    pub fn interval(&self) -> u8
        ensures is { result ≡ self.now.interval }
        ensures limits { (1 ≤ result) × (result ≤ self.now.window) }
    {
        let contents = &*self.inner;
        contents.interval
    }

    /// The greatest number of requests of a batch: 1 to 8.
    pub fn batch(&self) -> u8
        ensures is { result ≡ self.now.batch }
        ensures limits { (1 ≤ result) × (result ≤ MOST_REQUESTS) }
    {
        let contents = &*self.inner;
        contents.batch
    }
}
