//! The batches that are met, and whether two of them share a digest.
ghost use Rattle.std.specs.Prelude.{◌≡◌, IsTrue, IfOk, OnOk, [], ◌∷◌, map};
ghost use Rattle.std.specs.List.{flat_map, list_all};
ghost use Rattle.std.specs.Map.{lookup};
ghost use Rattle.std.specs.Option.{option_copied};
ghost use Rattle.std.specs.Str.{bytes_eq};
ghost use Rattle.fab_rules.specs.Digests.{batch_digest};
ghost use Rattle.fab_rules.specs.Format.{batch_fits, certificate_fits, view_change_fits, fits};
ghost use Rattle.fab_rules.specs.Statements.{batches_of, batches_of_change};
ghost use Rattle.run_worlds.specs.Sights.{met_with, first_clash, after_batches};
ghost use Rattle.fabric_audit.specs.Meeting.{AreFirsts, Finds, Gains, Meets, clash_of};

use crate::stops::Stop;
use fab_base::{Batch, Hash32, Message, NoMemory, PreparedCert, ViewChange};
use msg_spell::batch_digest;
use run_words::Evidence;
use std::alloc::Global;
use std::collections::BTreeMap;
use std::marker::Model;

/// The batch that was met first with each digest. As long as no two batches that were met share a digest, all that were met with one are
/// equal to the first. A contract sees the digests with their batches.
#[derive(Drop)]
pub(crate) struct Meetings<'a> {
    firsts: BTreeMap<[u8; 32], &'a Batch>,
}

impl<'a> Model for Meetings<'a> {
    ghost use Rattle.std.specs.Prelude.{map};
    ghost use Rattle.fabric_audit.specs.Meeting.{Firsts};

    ghost Value = { Firsts };

    ghost view = { λ m. map (λ e. (e.0, e.1.now)) m.firsts.entries };
}

/// Evidence where two batches of one digest aren't equal. It owns copies of both, which take memory.
fn compare(digest: Hash32, first: &Batch, second: &Batch) -> Result<(), Stop>
    ensures { Finds result (clash_of digest first.now second.now) }
{
    if first == second {
        return Ok(());
    }
    Err(Stop::Found(Evidence::Clash {
        digest,
        first: first.copy()?,
        second: second.copy()?,
    }))
}

impl<'a> Meetings<'a> {
    /// The null batch alone is met. It fails only where memory is refused.
    pub(crate) fn new(alloc: Global, null: &'a Batch) -> Result<Meetings<'a>, NoMemory>
        requires { null.now ≡ [] }
        ensures { IfOk result (λ meetings. AreFirsts meetings ([] ∷ [])) }
    {
        let mut meetings = Meetings {
            firsts: BTreeMap::new(alloc),
        };
        meetings.keep(batch_digest(null), null)?;
        Ok(meetings)
    }

    /// The batch that was met first with a digest.
    fn first(&self, digest: &Hash32) -> Option<&'a Batch>
        ensures { option_copied result ≡ lookup (bytes_eq digest.now.bytes) self.now }
    {
        match self.firsts.get(&digest.bytes) {
            Some(first) => Some(*first),
            None => None,
        }
    }

    /// Keeps a batch as the one met first with its digest.
    fn keep(&mut self, digest: Hash32, batch: &'a Batch) -> Result<(), NoMemory>
        ensures { OnOk result (Gains self.old self.new digest.bytes batch.now) }
    {
        self.firsts.insert(digest.bytes, batch)?;
        Ok(())
    }

    /// Meets a batch: there is evidence where an earlier one has its digest and is another one.
    pub(crate) fn meet(&mut self, batch: &'a Batch) -> Result<(), Stop>
        requires { IsTrue (batch_fits batch.now) }
        ensures { Meets self.old result self.new (λ met. met_with met batch.now (first_clash met batch.now)) }
    {
        let digest = batch_digest(batch);
        match self.first(&digest) {
            Some(first) => compare(digest, first, batch),
            None => {
                self.keep(digest, batch)?;
                Ok(())
            }
        }
    }

    /// Meets the batches of certificates, in their order.
    fn meet_certificates(&mut self, certificates: &'a [PreparedCert]) -> Result<(), Stop>
        requires { IsTrue (list_all certificate_fits certificates.now) }
        ensures { Meets self.old result self.new (λ met. after_batches met (map (λ k. k.batch) certificates.now)) }
    {
        for certificate in certificates {
            self.meet(&certificate.batch)?;
        }
        Ok(())
    }

    /// Meets the batches of view changes, in their order.
    fn meet_changes(&mut self, changes: &'a [ViewChange]) -> Result<(), Stop>
        requires { IsTrue (list_all view_change_fits changes.now) }
        ensures { Meets self.old result self.new (λ met. after_batches met (flat_map batches_of_change changes.now)) }
    {
        for change in changes {
            self.meet_certificates(change.prepared.as_slice())?;
        }
        Ok(())
    }

    /// Meets the batches of a message, in the order of their first bytes.
    pub(crate) fn meet_all(&mut self, message: &'a Message) -> Result<(), Stop>
        requires { IsTrue (fits message.now) }
        ensures { Meets self.old result self.new (λ met. after_batches met (batches_of message.now)) }
    {
        match message {
            Message::PrePrepare(x) => self.meet(&x.batch),
            Message::ViewChange(x) => self.meet_certificates(x.prepared.as_slice()),
            Message::NewView(x) => self.meet_changes(x.changes.as_slice()),
            Message::Share(x) => self.meet(&x.batch),
            _ => Ok(()),
        }
    }
}
