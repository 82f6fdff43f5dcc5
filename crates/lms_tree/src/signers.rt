//! Whoever signs with a key and counts its leaves.
ghost use Rattle.std.specs.Prelude.{ℕ, ◌≡◌, ◌↔◌, ◌+◌, ◌<◌, ◌≤◌, List, length, IsTrue, IfOk, OnErr, IfErr, IfSome, MatchOption, ◌⊎◌, Err};
ghost use Rattle.lms_tree.specs.declared.public.Public.{Public};
ghost use Rattle.lms_tree.specs.declared.signers.SignFault.{SignFault};
ghost use Rattle.lms_tree.specs.declared.signers.SignFault.TheVariants.{KeySpent, NoMemory};
ghost use Rattle.lms_tree.specs.Signatures.{tree_signature_len};
ghost use Rattle.lms_tree.specs.Verdict.{number_at, Valid};

use crate::public::Public;
use fab_rows::Bytes;
use std::alloc::AllocError;

/// Why nothing was signed.
#[derive(Clone, Copy, Debug, PartialEq, Eq)]
pub enum SignFault {
    /// All leaves of the key were used: so many.
    KeySpent { used: u32 },
    /// Memory was refused. No leaf was used and nothing was signed.
    NoMemory,
}

impl From<AllocError> for SignFault {
    ghost from_gives = { λ _ fault. fault ≡ NoMemory };

    fn from(_error: AllocError) -> SignFault {
        SignFault::NoMemory
    }
}

/// Whoever signs with the leaves of a key and uses none of them twice.
///
/// Every signer has a public key, a number of signatures that it can make in all, and for each number k
/// below it the signature that it gives of a content as number k, from 0. None of these ever changes.
/// What it gives is valid under its public key, and two numbers never share a leaf. So over any list of
/// calls, each leaf signs at most one content.
///
/// A call that signs takes its memory first. After a refusal the signer is the one that it was, with
/// whatever a contract sees of it, and nothing was given away; after a signature it says what a caller
/// needs of it: that it is valid, how long it is, and that no more were made than the limit.
pub trait Signer {
    // The public key.
    ghost key: { Self → Public };

    // How many signatures it can make in all.
    ghost limit: { Self → ℕ };

    // How many it has made.
    ghost made: { Self → ℕ };

    // The signature of a content as number k, from 0.
    ghost gives: { Self → ℕ → List ℕ → List ℕ };

    /// The public key under which all signatures are valid. It takes no memory.
    fn public(&self) -> Public
        ensures { result ≡ key self.now };

    /// How many signatures were made, which is the number of the next one. It takes no memory.
    fn used(&self) -> u32
        ensures number { result ≡ made self.now }
        ensures within { made self.now ≤ limit self.now };

    /// Whether `sign` would answer `KeySpent`. It takes no memory.
    fn spent(&self) -> bool
        ensures { IsTrue result ↔ (made self.now ≡ limit self.now) };

    /// Signs two contents, one after the other, as two calls of `sign` would, but takes the memory for
    /// both signatures before the first is made. The second signature is `None` exactly where the first
    /// took the last leaf. `KeySpent` comes exactly where every leaf was used. After a refusal no leaf
    /// was used and nothing was signed.
    fn sign_both(
        &mut self,
        first: &[u8],
        second: &[u8],
    ) -> Result<(Bytes, Option<Bytes>), SignFault>
        ensures same { (key self.new ≡ key self.old) × (limit self.new ≡ limit self.old) × (gives self.new ≡ gives self.old) }
        ensures first { IfOk result (λ both. both.0 ≡ gives self.old (made self.old) first.now) }
        ensures second { IfOk result (λ both. MatchOption both.1 ((made self.old + 1 ≡ limit self.old) × (made self.new ≡ made self.old + 1))
            (λ signature. (made self.old + 1 < limit self.old) × (signature ≡ gives self.old (made self.old + 1) second.now) × (made self.new ≡ made self.old + 2))) }
        ensures first_valid { IfOk result (λ both. Valid (key self.old) first.now both.0) }
        ensures second_valid { IfOk result (λ both. IfSome both.1 (λ signature. Valid (key self.old) second.now signature)) }
        ensures len { IfOk result (λ both. (length both.0 ≡ tree_signature_len (key self.old).ots (key self.old).height)
            × IfSome both.1 (λ signature. length signature ≡ tree_signature_len (key self.old).ots (key self.old).height)) }
        ensures within { made self.new ≤ limit self.old }
        ensures refused { OnErr result (self.new ≡ self.old) }
        ensures spent { (made self.old ≡ limit self.old) ↔ (result ≡ Err (KeySpent (made self.old))) }
        ensures fault { IfErr result (λ fault. (fault ≡ NoMemory) ⊎ (fault ≡ KeySpent (made self.old))) };

    /// Signs a content as number `used`. `KeySpent` comes exactly where every leaf was used. After a
    /// refusal no leaf was used and nothing was signed.
    fn sign(&mut self, content: &[u8]) -> Result<Bytes, SignFault>
        ensures same { (key self.new ≡ key self.old) × (limit self.new ≡ limit self.old) × (gives self.new ≡ gives self.old) }
        ensures signed { IfOk result (λ signature. (signature ≡ gives self.old (made self.old) content.now) × (made self.new ≡ made self.old + 1)) }
        ensures valid { IfOk result (λ signature. Valid (key self.old) content.now signature) }
        ensures len { IfOk result (λ signature. length signature ≡ tree_signature_len (key self.old).ots (key self.old).height) }
        ensures within { made self.new ≤ limit self.old }
        ensures refused { OnErr result (self.new ≡ self.old) }
        ensures spent { (made self.old ≡ limit self.old) ↔ (result ≡ Err (KeySpent (made self.old))) }
        ensures fault { IfErr result (λ fault. (fault ≡ NoMemory) ⊎ (fault ≡ KeySpent (made self.old))) };

    // Each signature is valid under the key.
    ghost valid: { (s : Self) (k : ℕ) (content : List ℕ) → k < limit s → Valid (key s) content (gives s k content) };

    // Two numbers never share a leaf.
    ghost apart: { (s : Self) (j k : ℕ) (a b : List ℕ) → j < limit s → k < limit s
        → number_at (gives s j a) 0 ≡ number_at (gives s k b) 0 → j ≡ k };
}
