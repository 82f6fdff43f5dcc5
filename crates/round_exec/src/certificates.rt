//! The certificates that are kept, found by round and cluster.
ghost use Rattle.std.specs.Prelude.{◌≡◌, ◌++◌, [], ◌∷◌, length, slice_get, None, OnOk, OnErr};
ghost use Rattle.std.specs.Option.{option_copied};
ghost use Rattle.fab_machine.specs.Rounds.{round_of, certificate_for};

use crate::NoMemory;
use crate::place::Place;
use fab_base::CommitCert;
use indexmap::IndexMap;
use std::alloc::Global;
use std::marker::Model;

/// The round of a certificate, which is the slot of its Commits; 0 where it has none.
pub(crate) fn round_of(cert: &CommitCert) -> u64
    ensures { result ≡ round_of cert.now }
{
    match cert.votes.get(0) {
        Some(vote) => vote.slot,
        None => 0,
    }
}

/// Certificates in the order in which they came, at most one of a round and cluster. A contract sees their list.
#[derive(Drop)]
pub(crate) struct Certificates {
    held: IndexMap<Place, CommitCert>,
}

impl Model for Certificates {
    ghost use Rattle.std.specs.Prelude.{◌≡◌, true, List};
    ghost use Rattle.std.specs.List.{list_all};
    ghost use Rattle.std.specs.HashMap.{values};
    ghost use Rattle.fab_base.specs.declared.messages.CommitCert.{CommitCert};
    ghost use Rattle.round_exec.specs.Keyed.{is_keyed};

    ghost Value = { List CommitCert };

    ghost view = { λ c. values c.held };

    ghost invariant = { λ c. list_all is_keyed c.held.entries ≡ true };
}

impl Certificates {
    /// None is kept.
    pub(crate) fn new(alloc: Global) -> Certificates
        ensures { result ≡ [] }
    {
        Certificates {
            held: IndexMap::new(alloc),
        }
    }

    /// The certificate of a round and cluster, `None` exactly where none is kept.
    pub(crate) fn of(&self, round: u64, cluster: u8) -> Option<&CommitCert>
        ensures { option_copied result ≡ certificate_for self.now round cluster }
    {
        self.held.get(&Place { round, cluster })
    }

    /// How many are kept.
    pub(crate) fn len(&self) -> usize
        ensures { result ≡ length self.now }
    {
        self.held.len()
    }

    /// The one at this place of the order in which they came, from 0: `None` exactly where no more are kept.
    pub(crate) fn at(&self, place: usize) -> Option<&CommitCert>
        ensures { option_copied result ≡ slice_get self.now place }
    {
        match self.held.get_index(place) {
            Some((_, cert)) => Some(cert),
            None => None,
        }
    }

    /// Keeps a certificate whose round and cluster have none. Where memory is refused, nothing changes.
    pub(crate) fn add(&mut self, cert: CommitCert) -> Result<(), NoMemory>
        requires { certificate_for self.old (round_of cert) cert.cluster ≡ None }
        ensures ok { OnOk result (self.new ≡ self.old ++ cert ∷ []) }
        ensures err { OnErr result (self.new ≡ self.old) }
    {
        let place = Place {
            round: round_of(&cert),
            cluster: cert.cluster,
        };
        match self.held.insert(place, cert) {
            Ok(_) => Ok(()),
            Err(_) => Err(NoMemory),
        }
    }
}
