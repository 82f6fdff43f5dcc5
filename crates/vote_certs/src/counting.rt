//! A tally: the first value of each sender, and who agrees on one.

ghost use Rattle.std.specs.Prelude.{◌≡◌, ◌≢◌, ◌<◌, ◌≤◌, ◌↔◌, ℕ, List, Option, Contains, length, take, replicate, Some, None, IsSome, IfSome};
ghost use Rattle.std.specs.List.Sorted.{IsStrictlyIncreasing};
ghost use Rattle.vote_certs.specs.Counting.{value_of, with_value, is_this, senders_of};

use crate::equality::Exact;
use crate::senders::{MOST_SENDERS, Senders};
use std::marker::Model;

/// What became of a value that was given to a tally.
#[derive(Clone, Copy, Debug, PartialEq, Eq)]
pub enum Added<V> {
    /// It was the first value of its sender, and is counted.
    Added,
    /// The same value of this sender is counted already.
    Twice,
    /// Another value of this sender is counted, and stays so.
    Other {
        /// The value that counts.
        kept: V,
    },
}

/// The values of the 1 to `MOST_SENDERS` senders of a cluster, by index: of each the first one counts, as PBFT counts the statements of distinct
/// replicas. A contract sees the list of the counted values, with `None` for a sender that gave none.
#[derive(Debug, Drop)]
pub struct Tally<V> {
    pub(crate) votes: Vec<Option<V>>,
}

impl<V> Model for Tally<V> {
    ghost use Rattle.std.specs.Prelude.{List, Option, length, ◌≤◌};
    ghost use Rattle.vote_certs.specs.declared.senders.TheConstants.{MOST_SENDERS};

    ghost Value = { List (Option V) };

    ghost view = { λ t. t.votes.items };

    ghost invariant = { λ t. (1 ≤ length t.votes.items) × (length t.votes.items ≤ MOST_SENDERS) };
}

/// Whether a value is counted here, and it is this one.
fn is_for<V: Exact>(vote: &Option<V>, value: &V) -> bool
    ensures { result ≡ is_this V.eq value.now vote.now }
{
    match vote {
        Some(counted) => *counted == *value,
        None => false,
    }
}

/// The first senders, at most so many, whose counted value is this one.
fn first_senders<V: Exact>(votes: &[Option<V>], most: usize, value: &V) -> Senders
    requires { length votes.now ≤ MOST_SENDERS }
    ensures { result ≡ take most (senders_of V.eq votes.now value.now) }
{
    let mut senders = Senders::new();
    for (place, vote) in votes.iter().enumerate() {
        if senders.len() < most && is_for(vote, value) {
            senders.push(place as u8);
        }
    }
    senders
}

impl<V: Exact> Tally<V> {
    /// Counts a value of a sender, by its index. Where one of this sender is counted already, that one stays: the answer is `Twice`
    /// exactly where it is the same, and `Other` exactly where it is another, with the counted one. Takes no memory.
    pub fn add(&mut self, sender: u8, value: V) -> Added<V>
        requires { sender < length self.old }
        ensures counted { self.new ≡ with_value self.old sender value }
        ensures added { (result ≡ Added.Added) ↔ (value_of self.old sender ≡ None) }
        ensures twice { (result ≡ Added.Twice) ↔ (value_of self.old sender ≡ Some value) }
        ensures other { (kept : V) → (result ≡ Added.Other kept) ↔ ((value_of self.old sender ≡ Some kept) × (kept ≢ value)) }
    {
        let place = sender as usize;
        match self.votes[place] {
            Some(kept) => {
                if kept == value {
                    Added::Twice
                } else {
                    Added::Other { kept }
                }
            }
            None => {
                self.votes[place] = Some(value);
                Added::Added
            }
        }
    }

    /// Forgets all values, and keeps the room. Takes no memory.
    pub fn clear(&mut self)
        ensures { self.new ≡ replicate (length self.old) None }
    {
        self.votes.fill(None);
    }

    /// The first `need` senders, by index, whose counted value is this one. It is `Some` exactly where there are at least so many, so
    /// always for 0. Takes no memory.
    pub fn cert(&self, need: u8, value: &V) -> Option<Senders>
        ensures enough { IsSome result ↔ (need ≤ length (senders_of V.eq self.now value.now)) }
        ensures first { IfSome result (λ s. s ≡ take need (senders_of V.eq self.now value.now)) }
    {
        let senders = first_senders(&self.votes, need as usize, value);
        if senders.len() == need as usize {
            Some(senders)
        } else {
            None
        }
    }
}

/// The law of senders: whatever was counted, the list of the senders of a value rises, so none stands in it twice, and it has just
/// those whose counted value is the one asked for.
pub fn senders_law<V: Exact>()
    ensures rising { (votes : List (Option V)) (value : V) → IsStrictlyIncreasing (senders_of V.eq votes value) }
    ensures each { (votes : List (Option V)) (value : V) (sender : ℕ)
        → Contains (senders_of V.eq votes value) sender ↔ (value_of votes sender ≡ Some value) }
{}
