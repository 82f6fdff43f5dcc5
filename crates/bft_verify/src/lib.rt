//! The edge of the fabric: bytes from anybody come in, and only sound messages go on.
//!
//! [`verify`] decodes bytes, looks at the shape of the message that they spell, and then at the signatures of all its parts. A
//! [`Verified`] is a message of which all of that is known: its type keeps it, and [`Verified::into_shaped`] hands it on to those who
//! ask for the shape alone. Whatever isn't sound is answered by its first [`Refusal`]. A [`Keyring`] has the public keys of the replicas
//! and clients, and [`keyring`] makes it.
//!
//! A run reads the bytes of a copy so, and keeps the refusal of those that aren't sound:
//!
//! ```text
//! match verify(self.alloc, self.members, self.ring, load) {
//!     Ok(verified) => Ok(Ok(verified)),
//!     Err(Refusal::NoMemory) => Err(NoMemory),
//!     Err(refusal) => Ok(Err(refusal)),
//! }
//! ```
//!
//! What is sound, and what is refused in which order, stands in `specs/Sound`, the keys in `specs/Ring`, and what is answered to bytes
//! in `specs/Answers`. [`sound_law`] says what soundness means: the message is shaped, and each part of it that somebody signs bears a
//! valid signature of its own (RFC 8554) under its signer's key. No part is passed over because it stands inside another that was
//! signed.
//!
//! Nothing that was read is trusted before it was looked at, and nothing is looked at twice: bytes are decoded once, and each part's
//! content is written once and its signature checked once. No call recurses over what came from outside, and memory is taken only
//! for what the bytes at hand fill: the message, and the content of one part at a time.
//!
//! Modules: `ring` has the keys and `making` their making, `refusals` the answers, `signatures` the judge of the signed parts,
//! `verifying` the call, `verified` what comes of it, `laws` the law.
#![tactic(auto)]

mod laws;
mod making;
mod refusals;
mod ring;
mod same_keys;
mod signatures;
mod verified;
mod verifying;

pub use laws::sound_law;
pub use making::keyring;
pub use refusals::Refusal;
pub use ring::Keyring;
pub use verified::Verified;
pub use verifying::verify;
