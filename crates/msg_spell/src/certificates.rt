//! Prepared certificates, and commit certificates that are shared.
ghost use Rattle.std.specs.Prelude.{◌≡◌, ◌++◌, ◌∷◌, IsTrue, OnOk};
ghost use Rattle.fab_base.specs.declared.messages.Message.{Message};
ghost use Rattle.fab_rules.specs.Spelling.{counted, certificate_bytes, body_of};
ghost use Rattle.fab_rules.specs.Format.{certificates_fit, share_fits};
ghost use Rattle.msg_spell.specs.Pieces.{Gains};

use crate::fields::{put_u8, put_u64};
use crate::requests::{batch_fits, put_batch};
use crate::spelled::{Fits, Ordered, Spelled, list_fits, put_counted};
use crate::tags::{COMMIT, PREPARE, SHARE};
use crate::votes::{put_votes, votes_fit};
use crate::writers::Writer;
use fab_base::{CommitCert, MOST_CERTIFICATES, PreparedCert, PreparedCerts};

impl Fits for PreparedCert {
    ghost use Rattle.fab_rules.specs.Format.{certificate_fits};

    ghost fits = { certificate_fits };

    fn fits(&self) -> bool {
        let _view = self.view;
        let _slot = self.slot;
        batch_fits(&self.batch) && votes_fit(&self.votes)
    }
}

impl Ordered for PreparedCert {
    ghost use Rattle.std.specs.Prelude.{nat_lt};

    type Rank = u64;

    ghost rank = { λ k. k.slot };

    ghost before = { nat_lt };

    fn precedes(&self, next: &PreparedCert) -> bool {
        self.slot < next.slot
    }
}

impl Spelled for PreparedCert {
    ghost use Rattle.fab_rules.specs.Spelling.{certificate_bytes};

    ghost spelling = { certificate_bytes };

    fn put<W: Writer>(&self, out: &mut W) -> Result<(), W::Fault> {
        put_u64(out, self.view)?;
        put_u64(out, self.slot)?;
        put_batch(out, &self.batch)?;
        put_votes(out, PREPARE, &self.votes)?;
        Ok(())
    }
}

/// Whether there are at most so many certificates as a list may have, each within the ranges, counts and lengths, and their slots rise.
pub fn certificates_fit(certificates: &PreparedCerts) -> bool
    ensures { result ≡ certificates_fit certificates.now }
{
    list_fits(certificates, MOST_CERTIFICATES)
}

/// Writes the number of the certificates and their spellings.
pub fn put_certificates<W: Writer>(
    out: &mut W,
    certificates: &PreparedCerts,
) -> Result<(), W::Fault>
    requires { IsTrue (certificates_fit certificates.now) }
    ensures { OnOk result (Gains W.holds out.old out.new (counted certificate_bytes certificates.now)) }
{
    put_counted(out, certificates)
}

/// Whether a certificate that is shared is within the ranges, counts and lengths.
pub fn share_fits(share: &CommitCert) -> bool
    ensures { result ≡ share_fits share.now }
{
    let _cluster = share.cluster;
    batch_fits(&share.batch) && votes_fit(&share.votes)
}

/// Writes a certificate that is shared, but for the format. It has no signature of its own.
pub fn put_share<W: Writer>(out: &mut W, share: &CommitCert) -> Result<(), W::Fault>
    requires { IsTrue (share_fits share.now) }
    ensures { OnOk result (Gains W.holds out.old out.new (body_of (Message.Share share.now))) }
{
    put_u8(out, SHARE)?;
    put_u8(out, share.cluster)?;
    put_batch(out, &share.batch)?;
    put_votes(out, COMMIT, &share.votes)?;
    Ok(())
}
