//! What a receiver makes of bytes.
ghost use Rattle.std.specs.Prelude.{◌≡◌, IfOk};
ghost use Rattle.copy_reader.specs.Reading.{IsRead};

use bft_verify::{Keyring, Refusal, Verified, verify};
use fab_base::{Members, NoMemory};
use std::alloc::Global;

/// Reads bytes for replicas that have the same members and keys.
#[derive(Clone, Copy, Drop)]
pub struct Reader<'a> {
    /// Where memory comes from.
    pub alloc: Global,
    /// The members of the fabric.
    pub members: &'a Members,
    /// The keys of replicas and clients.
    pub ring: &'a Keyring,
}

impl Reader<'_> {
    /// The message that bytes spell where it is sound, or else the first refusal: what each replica of these members and keys makes of
    /// them. It fails only where memory is refused.
    pub fn read(&self, load: &[u8]) -> Result<Result<Verified, Refusal>, NoMemory>
        ensures { IfOk result (λ read. IsRead self.now.members.now self.now.ring.now load.now read) }
    {
        match verify(self.alloc, self.members, self.ring, load) {
            Ok(verified) => Ok(Ok(verified)),
            Err(refusal) => match refusal {
                Refusal::NoMemory => Err(NoMemory),
                _ => Ok(Err(refusal)),
            },
        }
    }
}
