//! Reading a field.
ghost use Rattle.std.specs.Prelude.{◌≡◌, ◌≤◌, ◌+◌, length, IfOk, MatchResult};
ghost use Rattle.std.specs.Int.{w8, w16, w32, w64};
ghost use Rattle.fab_codec.specs.Fields.{run_at, number_at};

use crate::faults::CodeFault;

/// The `len` bytes at a place, which is at most the length. `Short` comes exactly where they don't end inside the bytes. Takes no memory.
#[tactic(auto, unfolding(crate::specs::Fields::run_at))]
pub fn take_run(bytes: &[u8], place: usize, len: usize) -> Result<&[u8], CodeFault>
    requires { place ≤ length bytes.now }
    ensures read { MatchResult result (λ run. run_at len bytes.now place ≡ Ok run.now) (λ fault. run_at len bytes.now place ≡ Err fault) }
    ensures inside { IfOk result (λ _. place + len ≤ length bytes.now) }
    ensures sized { IfOk result (λ run. length run.now ≡ len) }
{
    if bytes.len() - place < len {
        return Err(CodeFault::Short {
            place: bytes.len() as u64,
        });
    }
    Ok(&bytes[place..place + len])
}

/// The byte at a place, which is at most the length. `Short` comes exactly where there is none. Takes no memory.
#[tactic(auto, unfolding(crate::specs::Fields::number_at))]
pub fn take_u8(bytes: &[u8], place: usize) -> Result<u8, CodeFault>
    requires { place ≤ length bytes.now }
    ensures read { result ≡ number_at w8 bytes.now place }
    ensures inside { IfOk result (λ _. place + 1 ≤ length bytes.now) }
{
    if bytes.len() - place < 1 {
        return Err(CodeFault::Short {
            place: bytes.len() as u64,
        });
    }
    Ok(bytes[place])
}

/// The number in the two bytes at a place, which is at most the length, the high byte first. `Short` comes exactly where they don't end
/// inside the bytes. Takes no memory.
#[tactic(auto, unfolding(crate::specs::Fields::number_at))]
pub fn take_u16(bytes: &[u8], place: usize) -> Result<u16, CodeFault>
    requires { place ≤ length bytes.now }
    ensures read { result ≡ number_at w16 bytes.now place }
    ensures inside { IfOk result (λ _. place + 2 ≤ length bytes.now) }
{
    if bytes.len() - place < 2 {
        return Err(CodeFault::Short {
            place: bytes.len() as u64,
        });
    }
    let field = &bytes[place..place + 2];
    Ok(u16::from_be_bytes([field[0], field[1]]))
}

/// The number in the four bytes at a place, which is at most the length, the high byte first. `Short` comes exactly where they don't end
/// inside the bytes. Takes no memory.
#[tactic(auto, unfolding(crate::specs::Fields::number_at))]
pub fn take_u32(bytes: &[u8], place: usize) -> Result<u32, CodeFault>
    requires { place ≤ length bytes.now }
    ensures read { result ≡ number_at w32 bytes.now place }
    ensures inside { IfOk result (λ _. place + 4 ≤ length bytes.now) }
{
    if bytes.len() - place < 4 {
        return Err(CodeFault::Short {
            place: bytes.len() as u64,
        });
    }
    let field = &bytes[place..place + 4];
    Ok(u32::from_be_bytes([field[0], field[1], field[2], field[3]]))
}

/// The number in the eight bytes at a place, which is at most the length, the high byte first. `Short` comes exactly where they don't end
/// inside the bytes. Takes no memory.
#[tactic(auto, unfolding(crate::specs::Fields::number_at))]
pub fn take_u64(bytes: &[u8], place: usize) -> Result<u64, CodeFault>
    requires { place ≤ length bytes.now }
    ensures read { result ≡ number_at w64 bytes.now place }
    ensures inside { IfOk result (λ _. place + 8 ≤ length bytes.now) }
{
    if bytes.len() - place < 8 {
        return Err(CodeFault::Short {
            place: bytes.len() as u64,
        });
    }
    let field = &bytes[place..place + 8];
    Ok(u64::from_be_bytes([
        field[0], field[1], field[2], field[3], field[4], field[5], field[6], field[7],
    ]))
}
