//! View changes and new views.
ghost use Rattle.std.specs.Prelude.{◌≡◌, None, Option};
ghost use Rattle.msg_read.specs.Steps.{Gives};
ghost use Rattle.msg_read.specs.Reading.{certificate, certificates, view_change_fields, view_change, view_changes, new_view_fields};

use crate::cursor::Cursor;
use crate::faults::DecodeFault;
use crate::listed::Listed;
use fab_base::{
    MOST_CERTIFICATES, MOST_STATEMENTS, NewView, PreparedCert, PreparedCerts, ReplicaId,
    ViewChange, ViewChanges,
};

impl Cursor<'_> {
    /// A prepared certificate, in a list behind one of the slot `last`, if there is one.
    #[tactic(auto, unfolding(crate::specs::Reading::certificate))]
    fn certificate(&mut self, last: Option<u64>) -> Result<PreparedCert, DecodeFault>
        ensures { Gives (λ k. (k, self.new)) result (certificate last self.old) }
    {
        let view = self.u64()?;
        let slot = self.next_slot(last)?;
        let batch = self.batch()?;
        let votes = self.votes(3)?;
        Ok(PreparedCert {
            view,
            slot,
            batch,
            votes,
        })
    }

    /// The certificates of a view change.
    #[tactic(auto, unfolding(crate::specs::Reading::certificates))]
    fn certificates(&mut self) -> Result<PreparedCerts, DecodeFault>
        ensures { Gives (λ k. (k, self.new)) result (certificates self.old) }
    {
        let count = self.count(MOST_CERTIFICATES)?;
        self.items(0, count, None)
    }

    /// A view change behind its tag, in a list behind the signer `last`, if there is one.
    #[tactic(auto, unfolding(crate::specs::Reading::view_change_fields))]
    pub(crate) fn view_change_fields(
        &mut self,
        last: Option<ReplicaId>,
    ) -> Result<ViewChange, DecodeFault>
        ensures { Gives (λ c. (c, self.new)) result (view_change_fields last self.old) }
    {
        let signer = self.signer(last)?;
        let view = self.u64()?;
        let low = self.u64()?;
        let proof = self.proof()?;
        let prepared = self.certificates()?;
        let sig = self.signature()?;
        Ok(ViewChange {
            signer,
            view,
            low,
            proof,
            prepared,
            sig,
        })
    }

    /// The view changes of a new view.
    #[tactic(auto, unfolding(crate::specs::Reading::view_changes))]
    fn view_changes(&mut self) -> Result<ViewChanges, DecodeFault>
        ensures { Gives (λ c. (c, self.new)) result (view_changes self.old) }
    {
        let count = self.count(MOST_STATEMENTS)?;
        self.items(6, count, None)
    }

    /// A new view behind its tag.
    #[tactic(auto, unfolding(crate::specs::Reading::new_view_fields))]
    pub(crate) fn new_view_fields(&mut self) -> Result<NewView, DecodeFault>
        ensures { Gives (λ x. (x, self.new)) result (new_view_fields self.old) }
    {
        let signer = self.signer(None)?;
        let view = self.u64()?;
        let changes = self.view_changes()?;
        let sig = self.signature()?;
        Ok(NewView {
            signer,
            view,
            changes,
            sig,
        })
    }
}

impl Listed for PreparedCert {
    ghost use Rattle.std.specs.Prelude.{Some};
    ghost use Rattle.msg_read.specs.Reading.{certificate};

    type Last = Option<u64>;

    ghost reads = { λ tag. certificate };

    ghost keeps = { λ k. Some k.slot };

    fn read(
        cursor: &mut Cursor<'_>,
        _tag: u8,
        last: Option<u64>,
    ) -> Result<PreparedCert, DecodeFault> {
        cursor.certificate(last)
    }

    fn kept(&self) -> Option<u64> {
        Some(self.slot)
    }
}

impl Listed for ViewChange {
    ghost use Rattle.std.specs.Prelude.{Some};
    ghost use Rattle.msg_read.specs.Reading.{view_change};

    type Last = Option<ReplicaId>;

    ghost reads = { λ tag. view_change };

    ghost keeps = { λ c. Some c.signer };

    #[tactic(auto, unfolding(crate::specs::Reading::view_change))]
    fn read(
        cursor: &mut Cursor<'_>,
        _tag: u8,
        last: Option<ReplicaId>,
    ) -> Result<ViewChange, DecodeFault> {
        cursor.tagged(6)?;
        cursor.view_change_fields(last)
    }

    fn kept(&self) -> Option<ReplicaId> {
        Some(self.signer)
    }
}
