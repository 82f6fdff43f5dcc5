//! View changes and new views.
ghost use Rattle.std.specs.Prelude.{◌≡◌, IsTrue, OnOk};
ghost use Rattle.fab_rules.specs.Spelling.{view_change_body, new_view_body};
ghost use Rattle.fab_rules.specs.Format.{view_change_fits, view_changes_fit, new_view_fits};
ghost use Rattle.msg_spell.specs.Pieces.{Gains};

use crate::certificates::{certificates_fit, put_certificates};
use crate::fields::{
    comes_before, id_fits, put_replica, put_signature, put_u8, put_u64, signature_fits,
};
use crate::spelled::{Fits, Ordered, Spelled, list_fits, put_counted};
use crate::tags::{NEW_VIEW, VIEW_CHANGE};
use crate::votes::{proof_fits, put_proof};
use crate::writers::Writer;
use fab_base::{MOST_STATEMENTS, NewView, ReplicaId, ViewChange, ViewChanges};

impl Fits for ViewChange {
    ghost use Rattle.fab_rules.specs.Format.{view_change_fits};

    ghost fits = { view_change_fits };

    fn fits(&self) -> bool {
        let _view = self.view;
        let _low = self.low;
        id_fits(self.signer)
            && proof_fits(&self.proof)
            && certificates_fit(&self.prepared)
            && signature_fits(&self.sig)
    }
}

impl Ordered for ViewChange {
    ghost use Rattle.fab_rules.specs.Format.{comes_before};

    type Rank = ReplicaId;

    ghost rank = { λ c. c.signer };

    ghost before = { comes_before };

    fn precedes(&self, next: &ViewChange) -> bool {
        comes_before(self.signer, next.signer)
    }
}

/// Writes what is signed of a view change, but for the format.
pub fn put_view_change_body<W: Writer>(out: &mut W, change: &ViewChange) -> Result<(), W::Fault>
    requires { IsTrue (view_change_fits change.now) }
    ensures { OnOk result (Gains W.holds out.old out.new (view_change_body change.now)) }
{
    put_u8(out, VIEW_CHANGE)?;
    put_replica(out, change.signer)?;
    put_u64(out, change.view)?;
    put_u64(out, change.low)?;
    put_proof(out, &change.proof)?;
    put_certificates(out, &change.prepared)?;
    Ok(())
}

impl Spelled for ViewChange {
    ghost use Rattle.fab_rules.specs.Spelling.{signed, view_change_body};

    ghost spelling = { λ c. signed (view_change_body c) c.sig };

    fn put<W: Writer>(&self, out: &mut W) -> Result<(), W::Fault> {
        put_view_change_body(out, self)?;
        put_signature(out, &self.sig)?;
        Ok(())
    }
}

/// Whether there are at most so many changes as a list may have, each within the ranges, counts and lengths, and their signers rise.
fn view_changes_fit(changes: &ViewChanges) -> bool
    ensures { result ≡ view_changes_fit changes.now }
{
    list_fits(changes, MOST_STATEMENTS)
}

/// Whether a new view is within the ranges, counts and lengths.
pub fn new_view_fits(new_view: &NewView) -> bool
    ensures { result ≡ new_view_fits new_view.now }
{
    let _view = new_view.view;
    id_fits(new_view.signer) && view_changes_fit(&new_view.changes) && signature_fits(&new_view.sig)
}

/// Writes what is signed of a new view, but for the format.
pub fn put_new_view_body<W: Writer>(out: &mut W, new_view: &NewView) -> Result<(), W::Fault>
    requires { IsTrue (new_view_fits new_view.now) }
    ensures { OnOk result (Gains W.holds out.old out.new (new_view_body new_view.now)) }
{
    put_u8(out, NEW_VIEW)?;
    put_replica(out, new_view.signer)?;
    put_u64(out, new_view.view)?;
    put_counted(out, &new_view.changes)?;
    Ok(())
}
