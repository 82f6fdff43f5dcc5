//! Digests as bytes and as the words of a hash value (FIPS 180-4, sections 3.1 and 6.2).
ghost use Rattle.std.specs.Prelude.{◌≡◌, ◌+◌, ◌≤◌};
ghost use Rattle.sha2.specs.Sha256.{word_at, digest_bytes};

/// The digest that the eight words of a hash value are: 32 bytes, each word's high byte first.
pub fn digest_of(words: &[u32; 8]) -> [u8; 32]
    ensures { result ≡ digest_bytes words.now 8 }
{
    let mut out = [0u8; 32];
    'words: for j in 0..8 {
        out[4 * j..4 * j + 4].copy_from_slice(&words[j].to_be_bytes());
    }
    out
}

// The word at byte `at`.
#[inline(always)]
fn load(digest: &[u8; 32], at: usize) -> u32
    requires { at + 4 ≤ 32 }
    ensures { result ≡ word_at digest.now at }
{
    u32::from_be_bytes([digest[at], digest[at + 1], digest[at + 2], digest[at + 3]])
}

/// The eight words of a digest, each from four bytes, the high one first. [`digest_of`] gives the digest
/// back.
pub fn words_of(digest: &[u8; 32]) -> [u32; 8]
    ensures { digest_bytes result 8 ≡ digest.now }
{
    [
        load(digest, 0),
        load(digest, 4),
        load(digest, 8),
        load(digest, 12),
        load(digest, 16),
        load(digest, 20),
        load(digest, 24),
        load(digest, 28),
    ]
}
