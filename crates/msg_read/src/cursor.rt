//! Where reading stands, and the fields.
ghost use Rattle.std.specs.Prelude.{◌≡◌, IfOk, Option, length, nat_lt};
ghost use Rattle.std.specs.Int.{w8, w16, w32, w64};
ghost use Rattle.fab_rules.specs.Format.{comes_before};
ghost use Rattle.msg_read.specs.Steps.{Gives, comes_after};
ghost use Rattle.msg_read.specs.Fields.{number, limited, tagged, run, short_bytes, signature, digest, replica, signer, next_slot};

use crate::faults::DecodeFault;
use fab_base::{Bytes, Hash32, LONGEST_SIGNATURE, ReplicaId, Rows};
use fab_codec::{CodeFault, take_run, take_u8, take_u16, take_u32, take_u64};
use std::alloc::Global;
use std::marker::Model;

/// The bytes that are read, and how far.
#[derive(Drop)]
pub(crate) struct Cursor<'a> {
    pub(crate) alloc: Global,
    pub(crate) bytes: &'a [u8],
    pub(crate) place: usize,
}

impl<'a> Model for Cursor<'a> {
    ghost use Rattle.std.specs.Prelude.{◌≤◌, length};
    ghost use Rattle.msg_read.specs.Steps.{At};

    ghost Value = { At };

    ghost view = { λ c. record { bytes = c.bytes.now; place = c.place } };

    ghost invariant = { λ c. c.place ≤ length c.bytes.now };
}

impl<'a> Cursor<'a> {
    /// One byte.
    #[tactic(auto, unfolding(crate::specs::Fields::number))]
    pub(crate) fn u8(&mut self) -> Result<u8, DecodeFault>
        ensures { Gives (λ n. (n, self.new)) result (number w8 self.old) }
    {
        match take_u8(self.bytes, self.place) {
            Ok(number) => {
                self.place += 1;
                Ok(number)
            }
            Err(fault) => Err(DecodeFault::Code(fault)),
        }
    }

    /// Two bytes.
    #[tactic(auto, unfolding(crate::specs::Fields::number))]
    pub(crate) fn u16(&mut self) -> Result<u16, DecodeFault>
        ensures { Gives (λ n. (n, self.new)) result (number w16 self.old) }
    {
        match take_u16(self.bytes, self.place) {
            Ok(number) => {
                self.place += 2;
                Ok(number)
            }
            Err(fault) => Err(DecodeFault::Code(fault)),
        }
    }

    /// Four bytes.
    #[tactic(auto, unfolding(crate::specs::Fields::number))]
    pub(crate) fn u32(&mut self) -> Result<u32, DecodeFault>
        ensures { Gives (λ n. (n, self.new)) result (number w32 self.old) }
    {
        match take_u32(self.bytes, self.place) {
            Ok(number) => {
                self.place += 4;
                Ok(number)
            }
            Err(fault) => Err(DecodeFault::Code(fault)),
        }
    }

    /// Eight bytes.
    #[tactic(auto, unfolding(crate::specs::Fields::number))]
    pub(crate) fn u64(&mut self) -> Result<u64, DecodeFault>
        ensures { Gives (λ n. (n, self.new)) result (number w64 self.old) }
    {
        match take_u64(self.bytes, self.place) {
            Ok(number) => {
                self.place += 8;
                Ok(number)
            }
            Err(fault) => Err(DecodeFault::Code(fault)),
        }
    }

    /// So many bytes.
    #[tactic(auto, unfolding(crate::specs::Fields::run))]
    fn run(&mut self, len: usize) -> Result<&'a [u8], DecodeFault>
        ensures read { Gives (λ r. (r.now, self.new)) result (run len self.old) }
        ensures sized { IfOk result (λ r. length r.now ≡ len) }
    {
        match take_run(self.bytes, self.place, len) {
            Ok(run) => {
                self.place += len;
                Ok(run)
            }
            Err(fault) => Err(DecodeFault::Code(fault)),
        }
    }

    /// The tag that is expected.
    #[tactic(auto, unfolding(crate::specs::Fields::tagged))]
    pub(crate) fn tagged(&mut self, tag: u8) -> Result<(), DecodeFault>
        ensures { Gives (λ _. (tag, self.new)) result (tagged tag self.old) }
    {
        let place = self.place as u64;
        if self.u8()? == tag {
            Ok(())
        } else {
            Err(DecodeFault::Code(CodeFault::BadTag { place }))
        }
    }

    /// A count of at most `most`.
    #[tactic(auto, unfolding(crate::specs::Fields::limited))]
    pub(crate) fn count(&mut self, most: u8) -> Result<u8, DecodeFault>
        ensures { Gives (λ n. (n, self.new)) result (limited w8 most self.old) }
    {
        let place = self.place as u64;
        let count = self.u8()?;
        if count <= most {
            Ok(count)
        } else {
            Err(DecodeFault::Code(CodeFault::TooLarge { place }))
        }
    }

    /// A key or a value of at most `longest` bytes.
    #[tactic(auto, unfolding(crate::specs::Fields::sized, crate::specs::Fields::limited))]
    pub(crate) fn short_bytes(&mut self, longest: usize) -> Result<Bytes, DecodeFault>
        ensures { Gives (λ r. (r, self.new)) result (short_bytes longest self.old) }
    {
        let place = self.place as u64;
        let len = self.u8()? as usize;
        if len > longest {
            return Err(DecodeFault::Code(CodeFault::TooLarge { place }));
        }
        let run = self.run(len)?;
        Ok(Rows::from_vec(run.to_vec(self.alloc)?))
    }

    /// A signature.
    #[tactic(auto, unfolding(crate::specs::Fields::sized, crate::specs::Fields::limited))]
    pub(crate) fn signature(&mut self) -> Result<Bytes, DecodeFault>
        ensures { Gives (λ r. (r, self.new)) result (signature self.old) }
    {
        let place = self.place as u64;
        let len = self.u16()? as usize;
        if len > LONGEST_SIGNATURE {
            return Err(DecodeFault::Code(CodeFault::TooLarge { place }));
        }
        let run = self.run(len)?;
        Ok(Rows::from_vec(run.to_vec(self.alloc)?))
    }

    /// A digest.
    #[tactic(auto, unfolding(crate::specs::Fields::digest))]
    pub(crate) fn digest(&mut self) -> Result<Hash32, DecodeFault>
        ensures { Gives (λ d. (d, self.new)) result (digest self.old) }
    {
        let run = self.run(32)?;
        let mut bytes = [0; 32];
        bytes.copy_from_slice(run);
        Ok(Hash32 { bytes })
    }

    /// A replica.
    #[tactic(auto, unfolding(crate::specs::Fields::replica))]
    pub(crate) fn replica(&mut self) -> Result<ReplicaId, DecodeFault>
        ensures { Gives (λ i. (i, self.new)) result (replica self.old) }
    {
        let cluster = self.u8()?;
        let index = self.u8()?;
        Ok(ReplicaId { cluster, index })
    }

    /// A signer, who comes after `last`, the one before it in its list, if there is one.
    #[tactic(auto, unfolding(crate::specs::Fields::signer))]
    pub(crate) fn signer(&mut self, last: Option<ReplicaId>) -> Result<ReplicaId, DecodeFault>
        ensures { Gives (λ i. (i, self.new)) result (signer last self.old) }
    {
        let place = self.place as u64;
        let signer = self.replica()?;
        if is_next(last, signer) {
            Ok(signer)
        } else {
            Err(DecodeFault::Code(CodeFault::NotAscending { place }))
        }
    }

    /// A slot, which comes after `last`, the one before it in its list, if there is one.
    #[tactic(auto, unfolding(crate::specs::Fields::next_slot))]
    pub(crate) fn next_slot(&mut self, last: Option<u64>) -> Result<u64, DecodeFault>
        ensures { Gives (λ n. (n, self.new)) result (next_slot last self.old) }
    {
        let place = self.place as u64;
        let slot = self.u64()?;
        if rises(last, slot) {
            Ok(slot)
        } else {
            Err(DecodeFault::Code(CodeFault::NotAscending { place }))
        }
    }
}

/// Whether the replica comes after the one before it, if there is one.
fn is_next(last: Option<ReplicaId>, replica: ReplicaId) -> bool
    ensures { result ≡ comes_after comes_before last replica }
{
    match last {
        None => true,
        Some(last) => {
            last.cluster < replica.cluster
                || (last.cluster == replica.cluster && last.index < replica.index)
        }
    }
}

/// Whether the slot comes after the one before it, if there is one.
fn rises(last: Option<u64>, slot: u64) -> bool
    ensures { result ≡ comes_after nat_lt last slot }
{
    match last {
        None => true,
        Some(last) => last < slot,
    }
}
