//! What a receiver makes of the bytes of a copy.
//!
//! A [`Reader`] reads bytes for all replicas that have the same members and keys, so that bytes are looked at without any of these replicas
//! at hand: by the schedule of a run before it gives a copy to its receiver, or by a worker before it takes its turn. What it reads is what
//! each of these replicas would make of the bytes (`specs/Reading`), so whoever has read may hand over a message in place of bytes.
//!
//! `sim_sched` reads a copy and has the receiver hear it, or notes why it was refused:
//!
//! ```text
//! let copy = self.way.remove(place);
//! match reader.read(copy.load.as_slice())? {
//!     Ok(message) => match self.party.act(Act::Hear(copy.origin, message)) {
//!         Told::NoMemory => Err(NoMemory),
//!         _ => Ok(true),
//!     },
//!     Err(refusal) => {
//!         self.note(copy.origin, copy.number, refusal)?;
//!         Ok(false)
//!     }
//! }
//! ```
#![tactic(auto)]

mod reading;

pub use reading::Reader;
