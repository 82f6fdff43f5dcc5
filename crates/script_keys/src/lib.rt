//! The keys of a script: whoever takes part in a simulated run has a key that is made from the script's seed, so that a run is fixed by
//! its script.
//!
//! - [`script_replicas`] lists the replicas, [`replica_signers`] makes a signer for each, [`client_keys`] a key for each client, and
//!   [`script_ring`] the ring of all their public keys.
//! - [`signed_requests`] signs the requests of a script before the run, and [`request_copies`] makes a copy of each for each replica of
//!   its client's home.
//! - [`keys_law`] says what runs need of all this: each replica's key is in the ring and gives valid signatures, and each copy is sound
//!   for its receiver.
//!
//! What is made stands in `specs/`, from the bottom up: `Names` (what a key is made from), `Keys`, `Rings`, `Requests`; `Laws` has what
//! runs ask. All keys are of kind W4 (RFC 8554); those of the replicas have the script's height, those of the clients height 5. A key of
//! height 10 takes 1.1 million blocks of SHA-256, so each is made once and handed on.
#![tactic(auto)]

mod copies;
mod keys;
mod laws;
mod names;
mod requests;
mod rings;

pub use copies::{Copies, request_copies};
pub use keys::{client_keys, replica_signers, script_replicas};
pub use laws::keys_law;
pub use requests::signed_requests;
pub use rings::script_ring;
