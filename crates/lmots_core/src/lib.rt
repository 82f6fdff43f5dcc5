//! LM-OTS, the one-time signatures of RFC 8554, over SHA-256 with n = 32.
//!
//! A one-time key belongs to an identifier `I`, a leaf number `q` and a secret seed. It is a row of
//! hash chains: the start of each chain comes from the seed (appendix A), and the hash of all their
//! ends is the public key. A signature shows each chain as many steps from its start as a digit of
//! the message's digest says; a checksum is among the digits, so that no digit can grow unless
//! another falls. Whoever verifies runs the rest of each chain and compares the hash of the ends.
//!
//! - [`OtsKind`] is the parameter set: digits of 1, 2, 4 or 8 bits.
//! - [`OtsSeed`] is the identifier and the seed, from which all keys of a tree come.
//! - [`public_of`] makes a public key and [`publics_of`] those of four leaves, [`sign`] a signature, and
//!   [`candidate`] computes from a message and a signature the key under which that signature would be
//!   valid.
//! - [`coef`] and [`checksum`] are the digits.
//!
//! Each call equals a definition of `specs/`, which restates the standard, one definition for all
//! four kinds. That a signature's candidate is the public key is `candidate_is_public_key`. A key may sign one
//! message only: no call here keeps count. Only `sign` takes memory; [`sign_in`] signs within room that
//! was taken before, and cannot fail.
#![tactic(auto)]

mod abreast;
mod candidates;
mod chains;
mod digits;
mod kind;
mod laws;
mod public_keys;
mod seed;
mod signatures;
mod steps;

pub use abreast::publics_of;
pub use candidates::candidate;
pub use digits::{checksum, coef};
pub use kind::OtsKind;
pub use laws::{candidate_is_public_key, checksum_fits};
pub use public_keys::public_of;
pub use seed::OtsSeed;
pub use signatures::{sign, sign_in};
pub use std::alloc::AllocError as NoMemory;
