//! LMS, the hash-based signatures of RFC 8554, over SHA-256 with m = 32.
//!
//! A key is a tree of hashes over the public keys of 2^h one-time keys ([`lmots_core`]); its public
//! half is the root. A signature by leaf q holds a one-time signature and the nodes beside the way
//! from that leaf up to the root, so that whoever verifies can compute the root again.
//!
//! - [`make`] makes a [`Key`] with its tree, of height 5 or 10, and [`Key::public`] its [`Public`], which
//!   tells how long its signatures are.
//! - [`sign_leaf`] signs a content by one leaf, and [`sign_leaf_in`] does in a [`SignatureRoom`], memory that
//!   was taken before, so that it cannot fail. A leaf is to sign one content only; these calls keep no
//!   count.
//! - [`Signer`] is what is promised of whoever keeps count: no leaf signs twice, each signature is valid, and
//!   after a refusal nothing has changed.
//! - [`verify`] checks a signature under a public key of any of the five heights and four kinds, and
//!   [`read_public`] and [`write_public`] take public keys from bytes and back.
//!
//! `script_keys` makes a client's key and signs its request of stamp t by leaf t - 1, and `bft_verify` checks it:
//!
//! ```text
//! let key = make(alloc, seed_of(script.seed, who), OtsKind::W4, Height::H5)?;
//! let signature = sign_leaf(alloc, &key, stamp - 1, &content)?;
//! ```
//!
//! ```text
//! match verify(key, content, signature) {
//!     Ok(()) => Ok(()),
//!     Err(fault) => Err(Refusal::BadSignature { part, fault }),
//! }
//! ```
//!
//! Any bytes may be given as a signature or a key: what is refused is refused by name ([`SigFault`]),
//! and neither `verify` nor `read_public` takes memory. The names and their order are this project's
//! own; to each of them RFC 8554 answers INVALID. That a signature by a leaf is valid under the
//! tree's root is `leaf_signature_is_valid`.
#![tactic(auto)]

mod faults;
mod fields;
mod heights;
mod key;
mod laws;
mod making;
mod nodes;
mod paths;
mod public;
mod room;
mod signers;
mod signing;
mod spelling;
mod verifying;

pub use fab_rows::NoMemory;
pub use faults::SigFault;
pub use heights::Height;
pub use key::Key;
pub use laws::{leaf_signature_is_valid, verdict_is_valid};
pub use lmots_core::{OtsKind, OtsSeed};
pub use making::make;
pub use public::Public;
pub use room::SignatureRoom;
pub use signers::{SignFault, Signer};
pub use signing::{sign_leaf, sign_leaf_in};
pub use spelling::{read_public, write_public};
pub use verifying::verify;
