//! The votes of one kind for one slot, prepares or commits: who voted for which digest, and what was kept of each counted vote.
ghost use Rattle.std.specs.Prelude.{◌≡◌, ◌≤◌, ◌<◌, ◌↔◌, length, take, replicate, nat_le, None, IfOk, IsSome, IfSome};
ghost use Rattle.std.specs.Option.{option_copied, option_map};
ghost use Rattle.fab_base.specs.Quorums.{quorum_size};
ghost use Rattle.vote_certs.specs.Counting.{value_of, with_value};
ghost use Rattle.pbft_slots.specs.Ballots.{Counted, vote_answer, senders_for, kept_from, first_votes};

use crate::NoMemory;
use crate::digest::Digest;
use fab_base::{Duplicate, Hash32, MOST_MEMBERS, Rows, Take, quorum};
use std::alloc::Global;
use std::marker::Model;
use vote_certs::{Added, Senders, Tally, tally};

/// The votes of one kind for one slot of a cluster of 1 to 10 members: of each the first one counts, with what was kept of it.
#[derive(Debug, Drop)]
pub(crate) struct Ballots<K> {
    digests: Tally<Digest>,
    kept: Vec<Option<K>>,
}

impl<K> Model for Ballots<K> {
    ghost use Rattle.std.specs.Prelude.{List, Option};
    ghost use Rattle.pbft_slots.specs.Ballots.{Counted};

    ghost Value = { List (Option (Counted K)) };

    ghost use Rattle.pbft_slots.specs.Paired.{pairs, AreHalves};

    ghost view = { λ b. pairs b.digests b.kept.items };

    ghost invariant = { λ b. AreHalves b.digests b.kept.items };
}

/// Empty places, one for each of `n` members.
fn empty_places<K: Drop>(alloc: Global, n: u8) -> Result<Vec<Option<K>>, NoMemory>
    ensures { IfOk result (λ v. v.items ≡ replicate n None) }
{
    let mut places = Vec::with_capacity(alloc, n as usize)?;
    for _ in 0..n {
        places.push(None)?;
    }
    Ok(places)
}

/// What stands in a member's place.
fn place_of<K>(places: &[Option<K>], member: u8) -> Option<&K>
    ensures { option_copied result ≡ value_of places.now member }
{
    places.get(member as usize)?.as_ref()
}

/// Empties all places.
fn empty_all<K: Drop>(places: &mut [Option<K>])
    ensures { places.new ≡ replicate (length places.old) None }
{
    for place in places.iter_mut() {
        *place = None;
    }
}

impl<K: Drop> Ballots<K> {
    /// The ballots of `n` members, 1 to 10, of whom none voted.
    pub(crate) fn new(alloc: Global, n: u8) -> Result<Ballots<K>, NoMemory>
        requires { (1 ≤ n) × (n ≤ MOST_MEMBERS) }
        ensures { IfOk result (λ b. b ≡ replicate n None) }
    {
        let digests = tally(alloc, n)?;
        let kept = empty_places(alloc, n)?;
        Ok(Ballots { digests, kept })
    }

    /// Counts a vote, unless one of its sender is counted; that one stays, and the new one is let go.
    pub(crate) fn add(&mut self, sender: u8, digest: Hash32, kept: K) -> Take
        requires { sender < length self.old }
        ensures counted { self.new ≡ with_value self.old sender (record { digest = digest; kept = kept }) }
        ensures answer { result ≡ vote_answer (value_of self.old sender) digest }
    {
        match self.digests.add(sender, Digest { hash: digest }) {
            Added::Added => {
                self.kept[sender as usize] = Some(kept);
                Take::Taken
            }
            Added::Twice => Take::Twice,
            Added::Other { kept: first } => Take::Conflict { kept: first.hash },
        }
    }

    /// Whether a quorum of the members voted for the digest.
    pub(crate) fn has_quorum(&self, digest: Hash32) -> bool
        ensures { result ≡ nat_le (quorum_size (length self.now)) (length (senders_for self.now digest)) }
    {
        let need = quorum(self.kept.len() as u8);
        self.digests.cert(need, &Digest { hash: digest }).is_some()
    }

    /// What was kept of a sender's counted vote: `None` where none is counted.
    pub(crate) fn kept(&self, sender: u8) -> Option<&K>
        ensures { option_copied result ≡ option_map (λ vote. vote.kept) (value_of self.now sender) }
    {
        place_of(&self.kept, sender)
    }

    /// Forgets all votes, and keeps the room.
    pub(crate) fn clear(&mut self)
        ensures { self.new ≡ replicate (length self.old) None }
    {
        self.digests.clear();
        empty_all(&mut self.kept);
    }

    /// The first members that voted for the digest, as many as make a quorum: `None` exactly where there are fewer.
    fn first_senders(&self, digest: Hash32) -> Option<Senders>
        ensures enough { IsSome result ↔ (quorum_size (length self.now) ≤ length (senders_for self.now digest)) }
        ensures first { IfSome result (λ s. s ≡ take (quorum_size (length self.now)) (senders_for self.now digest)) }
    {
        let need = quorum(self.kept.len() as u8);
        self.digests.cert(need, &Digest { hash: digest })
    }
}

impl<K: Duplicate> Ballots<K> {
    /// Copies of what was kept of these members' votes.
    fn copies(&self, alloc: Global, senders: &[u8]) -> Result<Rows<K>, NoMemory>
        ensures { IfOk result (λ copies. copies ≡ kept_from self.now senders.now) }
    {
        let mut copies = Rows::new(alloc);
        for sender in senders {
            if let Some(kept) = self.kept(*sender) {
                copies.push(kept.duplicate()?)?;
            }
        }
        Ok(copies)
    }

    /// Copies of what was kept of the first votes for the digest, as many as make a quorum.
    pub(crate) fn first_kept(&self, alloc: Global, digest: Hash32) -> Result<Rows<K>, NoMemory>
        requires { quorum_size (length self.now) ≤ length (senders_for self.now digest) }
        ensures { IfOk result (λ copies. copies ≡ first_votes (quorum_size (length self.now)) self.now digest) }
    {
        match self.first_senders(digest) {
            Some(senders) => self.copies(alloc, senders.as_slice()),
            None => Ok(Rows::new(alloc)),
        }
    }
}
