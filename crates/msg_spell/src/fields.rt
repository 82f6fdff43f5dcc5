//! Fields: numbers, short runs of bytes, replicas, digests and signatures.
ghost use Rattle.std.specs.Prelude.{◌≡◌, ◌<◌, ◌≤◌, ◌^◌, ◌++◌, ◌∷◌, [], IsTrue, length, OnOk};
ghost use Rattle.std.specs.Int.{w16, w32, w64, to_be_bytes};
ghost use Rattle.fab_base.specs.Fields.{bytes_fit};
ghost use Rattle.fab_rules.specs.Spelling.{short_bytes, signed, replica_bytes};
ghost use Rattle.fab_rules.specs.Format.{id_fits, signature_fits, digest_fits, comes_before};
ghost use Rattle.msg_spell.specs.Pieces.{Gains};

use crate::writers::Writer;
use fab_base::{Bytes, Hash32, LONGEST_SIGNATURE, ReplicaId};

/// Whether there are at most so many bytes. That each is below 256 is known from its type.
pub fn bytes_fit(bytes: &[u8], longest: usize) -> bool
    ensures { result ≡ bytes_fit longest bytes.now }
{
    bytes.len() <= longest
}

/// Whether a signature has at most as many bytes as one may have.
pub fn signature_fits(signature: &Bytes) -> bool
    ensures { result ≡ signature_fits signature.now }
{
    bytes_fit(signature.as_slice(), LONGEST_SIGNATURE)
}

/// That a digest is in its field, as its type tells: it has 32 bytes.
pub fn digest_fits(digest: &Hash32) -> bool
    ensures { result ≡ digest_fits digest.now }
{
    bytes_fit(&digest.bytes, 32)
}

/// That the numbers of a replica are in their fields, as their types tell.
pub fn id_fits(replica: ReplicaId) -> bool
    ensures { result ≡ id_fits replica }
{
    true
}

/// Whether the first replica comes before the second: by cluster, and then by index.
pub fn comes_before(first: ReplicaId, second: ReplicaId) -> bool
    ensures { result ≡ comes_before first second }
{
    first.cluster < second.cluster
        || (first.cluster == second.cluster && first.index < second.index)
}

/// Writes a byte.
pub fn put_u8<W: Writer>(out: &mut W, value: u8) -> Result<(), W::Fault>
    ensures { OnOk result (Gains W.holds out.old out.new (value ∷ [])) }
{
    out.write(&[value])
}

/// Writes a number in four bytes, the high byte first.
pub fn put_u32<W: Writer>(out: &mut W, value: u32) -> Result<(), W::Fault>
    ensures { OnOk result (Gains W.holds out.old out.new (to_be_bytes w32 value)) }
{
    out.write(&value.to_be_bytes())
}

/// Writes a number in eight bytes, the high byte first.
pub fn put_u64<W: Writer>(out: &mut W, value: u64) -> Result<(), W::Fault>
    ensures { OnOk result (Gains W.holds out.old out.new (to_be_bytes w64 value)) }
{
    out.write(&value.to_be_bytes())
}

/// Writes the number of the bytes, of which there are at most 255, and the bytes.
pub fn put_short<W: Writer>(out: &mut W, bytes: &Bytes) -> Result<(), W::Fault>
    requires { length bytes.now ≤ 255 }
    ensures { OnOk result (Gains W.holds out.old out.new (short_bytes bytes.now)) }
{
    put_u8(out, bytes.len() as u8)?;
    out.write(bytes.as_slice())
}

/// Writes the number of the bytes of a signature, in two bytes. The signature stands behind it.
pub fn put_signature_len<W: Writer>(out: &mut W, len: usize) -> Result<(), W::Fault>
    requires { len < 2 ^ 16 }
    ensures { OnOk result (Gains W.holds out.old out.new (to_be_bytes w16 len)) }
{
    out.write(&(len as u16).to_be_bytes())
}

/// Writes the seal of a signed spelling: the number of the bytes of a signature, in two bytes, and the signature.
pub fn put_signature<W: Writer>(out: &mut W, signature: &Bytes) -> Result<(), W::Fault>
    requires { IsTrue (signature_fits signature.now) }
    ensures { OnOk result (Gains W.holds out.old out.new (signed [] signature.now)) }
{
    put_signature_len(out, signature.len())?;
    out.write(signature.as_slice())
}

/// Writes the cluster and the index of a replica.
pub fn put_replica<W: Writer>(out: &mut W, replica: ReplicaId) -> Result<(), W::Fault>
    ensures { OnOk result (Gains W.holds out.old out.new (replica_bytes replica)) }
{
    put_u8(out, replica.cluster)?;
    put_u8(out, replica.index)?;
    Ok(())
}
