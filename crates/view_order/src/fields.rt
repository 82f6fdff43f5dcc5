//! What is in its field, as its type tells.
ghost use Rattle.std.specs.Prelude.{IsTrue};
ghost use Rattle.fab_base.specs.Fields.{are_bytes};
ghost use Rattle.fab_rules.specs.Format.{digest_fits};

use fab_base::Hash32;

/// That a digest is in its field: it has 32 bytes.
pub(crate) fn in_field(digest: &Hash32)
    ensures { IsTrue (digest_fits digest.now) }
{
    are_bytes(&digest.bytes)
}

/// That each of some bytes is below 256.
fn are_bytes(bytes: &[u8])
    ensures { IsTrue (are_bytes bytes.now) }
{
    // For the proof: what is read is within its type.
    let _ = bytes;
}
