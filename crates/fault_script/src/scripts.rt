//! What a script declares.
ghost use Rattle.std.specs.Prelude.{◌≡◌, [], IfOk};
ghost use Rattle.fault_script.specs.Asking.{asked};

use crate::twists::TimeoutLines;
use fab_base::{Bytes, ClientId, Duplicate, NoMemory, Op, Request, Rows};
use std::alloc::Global;

/// The most timeouts of a script.
pub const MOST_TIMEOUTS: u8 = 16;

/// A request that a script has a client make. Its stamp is its number among the client's requests.
#[derive(Debug, Drop)]
pub struct Wish {
    /// Who asks.
    pub client: ClientId,
    /// The number of the request among the client's, from 1.
    pub stamp: u32,
    /// What is asked for.
    pub op: Op,
}

impl Wish {
    /// The request that is asked for, which nobody has signed yet. Takes no memory.
    pub fn into_request(self, alloc: Global) -> Request
        ensures { result ≡ asked self [] }
    {
        Request {
            client: self.client,
            stamp: self.stamp,
            op: self.op,
            sig: Rows::new(alloc),
        }
    }

    /// The same, with a copy of the operation. It fails only where memory is refused.
    pub fn request(&self, alloc: Global) -> Result<Request, NoMemory>
        ensures { IfOk result (λ request. request ≡ asked self.now []) }
    {
        let wish = Wish {
            client: self.client,
            stamp: self.stamp,
            op: self.op.duplicate()?,
        };
        Ok(wish.into_request(alloc))
    }
}

/// The requests of a script, in its order.
pub type Wishes = Rows<Wish>;

/// What a script declares.
#[derive(Debug, Drop)]
pub struct Script {
    /// The number of replicas of each cluster; clusters are counted from 1.
    pub sizes: Bytes,
    /// The home cluster of each client; clients are counted from 0.
    pub homes: Bytes,
    /// The requests, in the order of the script.
    pub requests: Wishes,
    /// The timeouts that are given whatever happens, in the order of the script: at most `MOST_TIMEOUTS`, each of a replica that is declared.
    pub timeouts: TimeoutLines,
    /// The most requests of a batch: 1 to `MOST_REQUESTS`, 8 where no line sets it.
    pub batch: u8,
    /// How many slots above the low mark are open at once: 1 to `MOST_SLOTS`, 16 where no line sets it.
    pub window: u8,
    /// How many rounds there are from one checkpoint to the next: 1 to `window`, the lesser of 8 and `window` where no line sets it.
    pub interval: u8,
    /// What a run's keys, and the choices of a simulated one, are made from: any number, 0 where no line sets it.
    pub seed: u64,
    /// The entries of all journals together at which a run ends as spent: 1 to `MOST_TURNS`, 100,000 where no line sets it.
    pub turns: u32,
    /// How many quiet moments of a run may end in timeouts: 0 to `MOST_PATIENCE`, 10 where no line sets it.
    pub patience: u32,
    /// The height of the tree of each replica's key: 5 or 10, 10 where no line sets it.
    pub height: u8,
}
