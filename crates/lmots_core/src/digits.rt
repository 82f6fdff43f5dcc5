//! Winternitz digits and their checksum (RFC 8554, sections 3.1.3 and 4.4).
ghost use Rattle.std.specs.Prelude.{◌≡◌, ◌*◌, ◌<◌, length};
ghost use Rattle.lmots_core.specs.Parameters.{width};
ghost use Rattle.lmots_core.specs.Digits.{coef, checksum, with_checksum};

use crate::kind::OtsKind;

/// Digit `i` of `bytes`, counted from 0, as wide as `kind` says: the high bits of a byte come
/// first (RFC 8554, section 3.1.3).
pub fn coef(bytes: &[u8], i: u16, kind: OtsKind) -> u8
    requires { i * width kind < 8 * length bytes.now }
    ensures { result ≡ coef bytes.now i (width kind) }
{
    let w = kind.width();
    let byte = bytes[usize::from(i) * usize::from(w) / 8];
    let place = (i % u16::from(8 / w)) as u8;
    kind.top_digit() & (byte >> (8 - (w * place + w)))
}

/// The checksum of a digest, as a number of 16 bits: what the digits lack of the greatest digit,
/// summed, and shifted left to fill the last digits (RFC 8554, section 4.4).
pub fn checksum(digest: &[u8; 32], kind: OtsKind) -> u16
    ensures { result ≡ checksum kind digest.now }
{
    let mut sum = 0u16;
    for i in 0..kind.digest_digits() {
        sum += u16::from(kind.top_digit() - coef(digest, i, kind));
    }
    sum << kind.checksum_shift()
}

// The digest with its checksum behind it: the bytes whose digits are signed.
pub(crate) fn with_checksum(digest: &[u8; 32], kind: OtsKind) -> [u8; 34]
    ensures { result ≡ with_checksum kind digest.now }
{
    let mut bytes = [0u8; 34];
    bytes[..32].copy_from_slice(digest);
    bytes[32..].copy_from_slice(&checksum(digest, kind).to_be_bytes());
    bytes
}
