//! The parameter sets of RFC 8554, section 4.1.
ghost use Rattle.std.specs.Prelude.{◌≡◌};

/// A parameter set of LM-OTS with SHA-256 and n = 32 (RFC 8554, section 4.1). The number in the
/// name is w, the width of a digit in bits: greater digits make shorter signatures that take longer.
#[derive(Clone, Copy, Debug, PartialEq, Eq)]
pub enum OtsKind {
    /// Digits of 1 bit, 265 chains, signatures of 8,516 bytes.
    W1,
    /// Digits of 2 bits, 133 chains, signatures of 4,292 bytes.
    W2,
    /// Digits of 4 bits, 67 chains, signatures of 2,180 bytes.
    W4,
    /// Digits of 8 bits, 34 chains, signatures of 1,124 bytes.
    W8,
}

impl OtsKind {
    ghost use Rattle.lmots_core.specs.Parameters.{width, chain_count, checksum_shift, type_code, kind_of_code, top_digit, digest_digits, signature_len};

    /// w: the width of a digit in bits.
    pub fn width(self) -> u8
        ensures { result ≡ width self }
    {
        match self {
            OtsKind::W1 => 1,
            OtsKind::W2 => 2,
            OtsKind::W4 => 4,
            OtsKind::W8 => 8,
        }
    }

    /// p: the number of chains, which is the number of 32-byte values of a signature.
    pub fn chain_count(self) -> u16
        ensures { result ≡ chain_count self }
    {
        match self {
            OtsKind::W1 => 265,
            OtsKind::W2 => 133,
            OtsKind::W4 => 67,
            OtsKind::W8 => 34,
        }
    }

    /// ls: the number of bits that the checksum is shifted left.
    pub fn checksum_shift(self) -> u8
        ensures { result ≡ checksum_shift self }
    {
        match self {
            OtsKind::W1 => 7,
            OtsKind::W2 => 6,
            OtsKind::W4 => 4,
            OtsKind::W8 => 0,
        }
    }

    /// The number of the type, which stands in front of each signature (RFC 8554, section 4.1).
    pub fn type_code(self) -> u32
        ensures { result ≡ type_code self }
    {
        match self {
            OtsKind::W1 => 1,
            OtsKind::W2 => 2,
            OtsKind::W4 => 3,
            OtsKind::W8 => 4,
        }
    }

    /// The kind whose type has this number, and `None` exactly where it is not one of the four.
    pub fn from_type_code(code: u32) -> Option<OtsKind>
        ensures { result ≡ kind_of_code code }
    {
        match code {
            1 => Some(OtsKind::W1),
            2 => Some(OtsKind::W2),
            3 => Some(OtsKind::W4),
            4 => Some(OtsKind::W8),
            _ => None,
        }
    }

    /// The greatest digit, 2^w - 1, which is the number of steps of a whole chain.
    pub fn top_digit(self) -> u8
        ensures { result ≡ top_digit self }
    {
        match self {
            OtsKind::W1 => 1,
            OtsKind::W2 => 3,
            OtsKind::W4 => 15,
            OtsKind::W8 => 255,
        }
    }

    /// u: the number of digits of a digest, 256 / w.
    pub fn digest_digits(self) -> u16
        ensures { result ≡ digest_digits self }
    {
        256 / u16::from(self.width())
    }

    /// The length of a signature in bytes: 4 for the type, 32 for the randomizer and 32 for each
    /// chain (RFC 8554, section 4.5).
    pub fn signature_len(self) -> usize
        ensures { result ≡ signature_len self }
    {
        4 + 32 * (usize::from(self.chain_count()) + 1)
    }
}
