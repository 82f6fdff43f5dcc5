//! A new view of a cluster of four, and what is chosen in it.
use crate::words::Unanswered;
use fab_base::{
    Batch, Bytes, ClientId, NewView, Op, PreparedCert, PreparedCerts, ReplicaId, Request,
    StableVotes, ViewChanges, Votes, primary,
};
use std::alloc::Global;
use view_change::{Choice, build, choose, chosen};

/// How many members the cluster has.
const SIZE: u8 = 4;

/// The new view so far, and the certificates of the change to come.
#[derive(Drop)]
pub(crate) struct Views {
    alloc: Global,
    new_view: NewView,
    certificates: PreparedCerts,
}

impl Views {
    /// A new view of which nothing is known.
    pub(crate) fn begin(alloc: Global, view: u64) -> Views {
        let signer = ReplicaId {
            cluster: 1,
            index: primary(view, SIZE),
        };
        Views {
            alloc,
            new_view: NewView {
                signer,
                view,
                changes: ViewChanges::new(alloc),
                sig: Bytes::new(alloc),
            },
            certificates: PreparedCerts::new(alloc),
        }
    }

    /// One certificate more for the change to come.
    pub(crate) fn certify(
        &mut self,
        slot: u64,
        view: u64,
        name: &str,
    ) -> Result<String, Unanswered> {
        let batch = named(self.alloc, name)?;
        let votes = Votes::new(self.alloc);
        self.certificates.push(PreparedCert {
            view,
            slot,
            batch,
            votes,
        })?;
        Ok(format!(in self.alloc; "a certificate of slot {slot} from view {view} for {name}")?)
    }

    /// The change of a member, with the certificates so far.
    pub(crate) fn change(&mut self, member: u8, low: u64) -> Result<String, Unanswered> {
        let signer = ReplicaId {
            cluster: 1,
            index: member,
        };
        let proof = StableVotes::new(self.alloc);
        let view = self.new_view.view;
        let change = build(self.alloc, signer, view, low, &proof, &self.certificates)?;
        let mut text = format!(in self.alloc; "1.{member} asks for view {view}: low {low}")?;
        for certificate in change.prepared.as_slice() {
            let slot = certificate.slot;
            text.push_str(format!(in self.alloc; ", slot {slot}")?.as_str())?;
        }
        self.new_view.changes.push(change)?;
        self.certificates = PreparedCerts::new(self.alloc);
        Ok(text)
    }

    /// Which slots are decided.
    pub(crate) fn choose(&self) -> Result<String, Unanswered> {
        let Choice { base, top } = choose(&self.new_view);
        Ok(format!(in self.alloc; "base {base}, top {top}")?)
    }

    /// What is chosen for a slot.
    pub(crate) fn chosen(&self, slot: u64) -> Result<String, Unanswered> {
        match chosen(&self.new_view, slot) {
            Some(batch) => {
                let name = name_of(batch);
                Ok(format!(in self.alloc; "slot {slot} is {name}")?)
            }
            None => Ok(format!(in self.alloc; "slot {slot} is the null batch")?),
        }
    }
}

/// The batch of this name: one request that reads the key.
fn named(alloc: Global, name: &str) -> Result<Batch, Unanswered> {
    let key = Bytes::from_vec(name.as_bytes().to_vec(alloc)?);
    let mut batch = Batch::new(alloc);
    batch.push(Request {
        client: ClientId { number: 0 },
        stamp: 1,
        op: Op::Get { key },
        sig: Bytes::new(alloc),
    })?;
    Ok(batch)
}

/// The name of a batch.
fn name_of(batch: &Batch) -> &str {
    match batch.get(0) {
        Some(
            Request {
                op: Op::Get { key },
                ..
            },
        ) => std::str::from_utf8(key.as_slice()).unwrap_or("?"),
        _ => "?",
    }
}
