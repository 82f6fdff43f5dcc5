//! The signer that uses the leaves of an LMS key one after another, and none twice.
//!
//! A [`LeafSigner`] takes a [`lms_tree::Key`] that has signed nothing, and signs by the trait
//! [`lms_tree::Signer`], whose law says that each signature is valid and no two share a leaf. Its own
//! promise goes further: content number k is signed by leaf k, so that no leaf is skipped either.
//!
//! The memory for a signature, or for both of a pair, is taken before a leaf is used: after a refusal for
//! want of memory the signer is what it was and nothing was signed.
#![tactic(auto)]

mod leaf_signer;

pub use leaf_signer::LeafSigner;
