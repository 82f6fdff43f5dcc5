//! Fields of keys and signatures.
ghost use Rattle.std.specs.Prelude.{◌≡◌, ◌+◌, ◌≤◌, take, drop, length};
ghost use Rattle.lms_tree.specs.Verdict.{number_at};

// The number in the four bytes at `place`, the high byte first.
pub(crate) fn number_at(bytes: &[u8], place: usize) -> u32
    requires { place + 4 ≤ length bytes.now }
    ensures { result ≡ number_at bytes.now place }
{
    let mut number = [0u8; 4];
    number.copy_from_slice(&bytes[place..place + 4]);
    u32::from_be_bytes(number)
}

// The 32 bytes at `place`.
pub(crate) fn hash_at(bytes: &[u8], place: usize) -> [u8; 32]
    requires { place + 32 ≤ length bytes.now }
    ensures { result ≡ take 32 (drop place bytes.now) }
{
    let mut hash = [0u8; 32];
    hash.copy_from_slice(&bytes[place..place + 32]);
    hash
}
