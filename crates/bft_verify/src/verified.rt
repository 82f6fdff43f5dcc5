//! A message that is sound.
ghost use Rattle.std.specs.Prelude.{◌≡◌, ◌↔◌, IsTrue};
ghost use Rattle.bft_verify.specs.Sound.{IsSound};

use crate::ring::Keyring;
use bft_msg::Shaped;
use fab_base::{Members, Message};
use std::marker::Model;

/// A message together with the members and the keyring for which it is sound: it has a spelling, there is no misfit in it, and each
/// signed part of it bears a valid signature of its signer. The type keeps all of that. A contract sees the members, the keys and the
/// message.
#[derive(Debug, Drop)]
pub struct Verified {
    shaped: Shaped,
    ring: Keyring,
}

impl Model for Verified {
    ghost use Rattle.bft_verify.specs.Admitted.{Admitted};
    ghost use Rattle.bft_verify.specs.Sound.{IsSound};

    ghost Value = { Admitted };

    ghost view = { λ v. record { members = v.shaped.members; ring = v.ring; message = v.shaped.message } };

    ghost invariant = { λ v. IsSound v.shaped.members v.ring v.shaped.message };
}

impl Verified {
    /// The message, of which the signatures were looked at too.
    pub(crate) fn new(shaped: Shaped, ring: Keyring) -> Verified
        requires { IsSound shaped.members ring shaped.message }
        ensures { result ≡ record { members = shaped.members; ring = ring; message = shaped.message } }
    {
        Verified { shaped, ring }
    }

    /// The members for whom the message is sound.
    pub fn members(&self) -> &Members
        ensures is { result.now ≡ self.now.members }
        ensures sound { IsSound self.now.members self.now.ring self.now.message }
    {
        self.shaped.members()
    }

    /// The keyring under which the message is sound.
    pub fn ring(&self) -> &Keyring
        ensures is { result.now ≡ self.now.ring }
        ensures sound { IsSound self.now.members self.now.ring self.now.message }
    {
        &self.ring
    }

    /// The message.
    pub fn message(&self) -> &Message
        ensures is { result.now ≡ self.now.message }
        ensures sound { IsSound self.now.members self.now.ring self.now.message }
    {
        self.shaped.message()
    }

    /// Whether it is sound for these members under these keys, by value: whoever was handed it by others asks so before it is heard.
    /// Takes no memory, and looks at no signature again.
    pub fn is_for(&self, members: &Members, ring: &Keyring) -> bool
        ensures is { IsTrue result ↔ ((self.now.members ≡ members.now) × (self.now.ring ≡ ring.now)) }
        ensures sound { IsTrue result → IsSound members.now ring.now self.now.message }
    {
        self.shaped.members().is_same(members) && self.ring.is_same(ring)
    }

    /// The message as one that is shaped for the same members. The handle to the keyring is dropped. Takes no memory.
    pub fn into_shaped(self) -> Shaped
        ensures is { result ≡ record { members = self.members; message = self.message } }
        ensures sound { IsSound self.members self.ring self.message }
    {
        self.shaped
    }
}
