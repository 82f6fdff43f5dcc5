//! The public keys of all who sign.
ghost use Rattle.std.specs.Prelude.{◌≡◌, ◌↔◌, IfOk, IsTrue};
ghost use Rattle.std.specs.Option.{option_copied};

use crate::same_keys::{are_same_clusters, are_same_keys};
use fab_base::{NoMemory, Rows, Who};
use lms_tree::Public;
use std::alloc::Global;
use std::marker::Model;
use std::sync::Arc;

/// What a `Keyring` is a handle to. It never changes.
#[derive(Debug, Drop)]
pub struct Keys {
    replicas: Rows<Rows<Public>>,
    clients: Rows<Public>,
}

impl Model for Keys {
    ghost use Rattle.std.specs.Prelude.{IsTrue};
    ghost use Rattle.bft_verify.specs.Ring.{Ring, are_fabric_keys};

    ghost Value = { Ring };

    ghost view = { λ k. record { replicas = k.replicas; clients = k.clients } };

    ghost invariant = { λ k. IsTrue (are_fabric_keys (record { replicas = k.replicas; clients = k.clients })) };
}

/// A handle to the public keys of the replicas and clients of a fabric: of kind W4 and of height 5 or 10. A contract sees the keys of
/// the members of each cluster, and those of the clients.
#[derive(Debug, Drop)]
pub struct Keyring {
    inner: Arc<Keys, Global>,
}

impl Model for Keyring {
    ghost use Rattle.std.specs.Arc.{arc_value};
    ghost use Rattle.bft_verify.specs.Ring.{Ring};

    ghost Value = { Ring };

    ghost view = { λ r. arc_value r.inner };
}

impl Keyring {
    ghost use Rattle.bft_verify.specs.Ring.{are_fabric_keys, key_of};

    /// A handle to these keys, which it takes memory for.
    pub(crate) fn new(
        alloc: Global,
        replicas: Rows<Rows<Public>>,
        clients: Rows<Public>,
    ) -> Result<Keyring, NoMemory>
        requires { IsTrue (are_fabric_keys (record { replicas = replicas; clients = clients })) }
        ensures { IfOk result (λ r. r ≡ record { replicas = replicas; clients = clients }) }
    {
        let inner = Arc::new(alloc, Keys { replicas, clients })?;
        Ok(Keyring { inner })
    }

    /// Another handle to the same keys. It fails only where memory is refused.
    pub fn share(&self) -> Result<Keyring, NoMemory>
        ensures { IfOk result (λ r. r ≡ self.now) }
    {
        Ok(Keyring {
            inner: Arc::try_clone(&self.inner)?,
        })
    }

    /// Whether both are handles to equal keys, by value: of the same members of the same clusters, and of the same clients. Takes no
    /// memory.
    pub fn is_same(&self, other: &Keyring) -> bool
        ensures { IsTrue result ↔ (self.now ≡ other.now) }
    {
        let (keys, others) = (&*self.inner, &*other.inner);
        are_same_clusters(keys.replicas.as_slice(), others.replicas.as_slice())
            && are_same_keys(keys.clients.as_slice(), others.clients.as_slice())
    }

    /// The key of a replica or a client. `None` comes exactly where the ring has none. Takes no memory.
    pub fn key(&self, who: Who) -> Option<&Public>
        ensures is { option_copied result ≡ key_of self.now who }
        ensures kinds { IsTrue (are_fabric_keys self.now) }
    {
        let keys = &*self.inner;
        match who {
            Who::Replica(id) => {
                if id.cluster == 0 {
                    return None;
                }
                match keys.replicas.get(id.cluster as usize - 1) {
                    Some(row) => row.get(id.index as usize),
                    None => None,
                }
            }
            Who::Client(id) => keys.clients.get(id.number as usize),
        }
    }
}
