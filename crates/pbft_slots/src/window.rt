//! The slots that are open in a view, and the calls on them.
ghost use Rattle.std.specs.Prelude.{◌≡◌, ◌≢◌, ◌≤◌, ◌<◌, ◌↔◌, Some, length, IfSome, IfOk};
ghost use Rattle.std.specs.Option.{option_copied, option_map};
ghost use Rattle.fab_base.specs.Quorums.{quorum_size};
ghost use Rattle.fab_base.specs.declared.ids.Hash32.{Hash32};
ghost use Rattle.pbft_slots.specs.Ballots.{first_votes};
ghost use Rattle.pbft_slots.specs.Window.{IsWindow, place_in, refusal_by, votes_in, slot_at, batch_at, prepare_at, commit_at, prepared_at, committed_at, IsPrepared, IsCommitted};
ghost use Rattle.pbft_slots.specs.Window.{pre_prepare_answer, prepare_answer, commit_answer, after_pre_prepare, after_prepare, after_commit, moved_to};

use crate::NoMemory;
use crate::leaving::leave_first;
use crate::slot::Slot;
use fab_base::{Batch, Duplicate, Hash32, Rows, Take};
use std::alloc::Global;
use std::marker::Model;

/// The slots `low + 1` to `low + window` of one view of a cluster (PBFT). All are open at once, and what is heard of them comes in
/// any order. `K` is what is kept of a vote: the vote itself, or where it is found.
///
/// A contract sees the low mark, the number of members and the slots in order; of each slot the batch with the digest under which
/// it was given, and the votes by sender.
#[derive(Debug, Drop)]
pub struct Slots<K> {
    pub(crate) low: u64,
    pub(crate) members: u8,
    pub(crate) slots: Vec<Slot<K>>,
}

impl<K> Model for Slots<K> {
    ghost use Rattle.pbft_slots.specs.Window.{Window, IsWindow};

    ghost Value = { Window K };

    ghost view = { λ s. record { low = s.low; members = s.members; slots = s.slots.items } };

    ghost invariant = { λ s. IsWindow (record { low = s.low; members = s.members; slots = s.slots.items }) };
}

impl<K: Drop> Slots<K> {
    /// The low mark, at first 0: the slots up to it are over.
    pub fn low(&self) -> u64
        ensures { result ≡ self.now.low }
    {
        self.low
    }

    /// How many members the cluster has, 1 to 10. Their indexes are the senders, from 0.
    pub fn members(&self) -> u8
        ensures is { result ≡ self.now.members }
        ensures whole { IsWindow self.now }
    {
        self.members
    }

    /// How many slots are open at once: those from `low + 1` to `low` and so many. No call changes it.
    pub fn width(&self) -> u64
        ensures { result ≡ length self.now.slots }
    {
        self.slots.len() as u64
    }

    /// Hears of a batch, with its digest: of each slot the first one is held. The answer is the first of these that holds:
    ///
    /// - `Old`, with the low mark: the slot is at or below it.
    /// - `Far`, with the last open slot: the slot is above it.
    /// - `Twice`: a batch with this digest is held.
    /// - `Conflict`, with the digest of the held batch: another is held.
    /// - `Taken`: the batch is held from now on, whatever the other slots hold.
    ///
    /// Other answers than `Taken` change nothing and let the batch go. Takes no memory.
    pub fn pre_prepare(&mut self, slot: u64, digest: Hash32, batch: Batch) -> Take
        ensures answer { result ≡ pre_prepare_answer self.old slot digest }
        ensures held { self.new ≡ after_pre_prepare self.old slot (record { digest = digest; batch = batch }) }
        ensures refused { result ≢ Take.Taken → self.new ≡ self.old }
    {
        match self.place_of(slot) {
            Ok(place) => {
                let slot = &mut self.slots[place];
                slot.pre_prepare(digest, batch)
            }
            Err(refused) => refused,
        }
    }

    /// Counts a prepare of a member: of each member the first one for a slot counts. The answers are those of `pre_prepare`, and
    /// `Twice` and `Conflict` speak of the digest of this sender's counted prepare. Takes no memory.
    pub fn prepare(&mut self, sender: u8, slot: u64, digest: Hash32, kept: K) -> Take
        requires { sender < self.old.members }
        ensures answer { result ≡ prepare_answer self.old sender slot digest }
        ensures counted { self.new ≡ after_prepare self.old sender slot (record { digest = digest; kept = kept }) }
        ensures refused { result ≢ Take.Taken → self.new ≡ self.old }
    {
        match self.place_of(slot) {
            Ok(place) => {
                let slot = &mut self.slots[place];
                slot.prepares.add(sender, digest, kept)
            }
            Err(refused) => refused,
        }
    }

    /// Counts a commit of a member, as `prepare` does a prepare. Takes no memory.
    pub fn commit(&mut self, sender: u8, slot: u64, digest: Hash32, kept: K) -> Take
        requires { sender < self.old.members }
        ensures answer { result ≡ commit_answer self.old sender slot digest }
        ensures counted { self.new ≡ after_commit self.old sender slot (record { digest = digest; kept = kept }) }
        ensures refused { result ≢ Take.Taken → self.new ≡ self.old }
    {
        match self.place_of(slot) {
            Ok(place) => {
                let slot = &mut self.slots[place];
                slot.commits.add(sender, digest, kept)
            }
            Err(refused) => refused,
        }
    }

    /// The digest of the slot's batch, where the slot is prepared (PBFT; ours in that the primary prepares too): it holds a batch that
    /// was given with this digest, and a quorum of prepares of it. Otherwise `None`, so too of a slot that isn't open.
    pub fn prepared(&self, slot: u64) -> Option<Hash32>
        ensures is { result ≡ prepared_at self.now slot }
        ensures quorum { (digest : Hash32) → (result ≡ Some digest) ↔ IsPrepared self.now slot digest }
    {
        self.at(slot)?.prepared()
    }

    /// The digest of the slot's batch, where the slot is committed (PBFT): it holds a batch that was given with this digest, and a
    /// quorum of commits of it. Otherwise `None`, so too of a slot that isn't open.
    pub fn committed(&self, slot: u64) -> Option<Hash32>
        ensures is { result ≡ committed_at self.now slot }
        ensures quorum { (digest : Hash32) → (result ≡ Some digest) ↔ IsCommitted self.now slot digest }
    {
        self.at(slot)?.committed()
    }

    /// The slot's batch: `None` exactly where it holds none, so too where it isn't open.
    pub fn batch(&self, slot: u64) -> Option<&Batch>
        ensures { option_copied result ≡ batch_at self.now slot }
    {
        Some(&self.at(slot)?.proposal.as_ref()?.batch)
    }

    /// What was kept of the sender's prepare: `None` exactly where none of this sender is counted for the slot.
    pub fn kept_prepare(&self, slot: u64, sender: u8) -> Option<&K>
        ensures { option_copied result ≡ option_map (λ vote. vote.kept) (prepare_at self.now slot sender) }
    {
        self.at(slot)?.prepares.kept(sender)
    }

    /// What was kept of the sender's commit: `None` exactly where none of this sender is counted for the slot.
    pub fn kept_commit(&self, slot: u64, sender: u8) -> Option<&K>
        ensures { option_copied result ≡ option_map (λ vote. vote.kept) (commit_at self.now slot sender) }
    {
        self.at(slot)?.commits.kept(sender)
    }

    /// Why the slot isn't open: `Old` or `Far` as in `pre_prepare`. `None` exactly where it is.
    pub fn refusal(&self, slot: u64) -> Option<Take>
        ensures { result ≡ refusal_by (place_in self.now slot) }
    {
        match self.place_of(slot) {
            Ok(_) => None,
            Err(refused) => Some(refused),
        }
    }

    /// Moves the low mark up. The slots above the new mark stay as they are, those up to it are forgotten, and as many are opened
    /// above, of which nothing was heard. Takes no memory.
    pub fn move_low(&mut self, low: u64)
        requires { self.old.low ≤ low }
        ensures { self.new ≡ moved_to self.old low }
    {
        let count = (low - self.low).min(self.width()) as usize;
        leave_first(&mut self.slots, count);
        self.low = low;
    }

    /// The place of an open slot among the open ones, from 0, or the answer for one that isn't.
    pub fn place_of(&self, slot: u64) -> Result<usize, Take>
        ensures is { result ≡ place_in self.now slot }
        ensures within { IfOk result (λ place. place < length self.now.slots) }
    {
        let width = self.width();
        if slot <= self.low {
            Err(Take::Old { low: self.low })
        } else if slot - self.low > width {
            // The slot is above low + width, which is therefore no more than the greatest number.
            Err(Take::Far {
                high: self.low + width,
            })
        } else {
            Ok((slot - self.low - 1) as usize)
        }
    }

    /// An open slot.
    fn at(&self, slot: u64) -> Option<&Slot<K>>
        ensures is { option_copied result ≡ slot_at self.now slot }
        ensures fits { IfSome result (λ s. (length s.now.prepares ≡ self.now.members) × (length s.now.commits ≡ self.now.members)) }
    {
        match self.place_of(slot) {
            Ok(place) => Some(&self.slots[place]),
            Err(_) => None,
        }
    }
}

impl<K: Duplicate> Slots<K> {
    /// Copies of what was kept of the first prepares for a prepared slot's digest, by sender, as many as make a quorum: with the batch
    /// they are PBFT's prepared certificate. It fails only where memory is refused.
    pub fn first_prepares(
        &self,
        alloc: Global,
        slot: u64,
        digest: Hash32,
    ) -> Result<Rows<K>, NoMemory>
        requires { prepared_at self.now slot ≡ Some digest }
        ensures { IfOk result (λ votes. votes ≡ first_votes (quorum_size self.now.members) (votes_in (λ s. s.prepares) (slot_at self.now slot)) digest) }
    {
        match self.at(slot) {
            Some(slot) => slot.prepares.first_kept(alloc, digest),
            None => Ok(Rows::new(alloc)),
        }
    }

    /// Copies of what was kept of the first commits for a committed slot's digest, by sender, as many as make a quorum: with the batch
    /// they are GeoBFT's commit certificate. It fails only where memory is refused.
    pub fn first_commits(
        &self,
        alloc: Global,
        slot: u64,
        digest: Hash32,
    ) -> Result<Rows<K>, NoMemory>
        requires { committed_at self.now slot ≡ Some digest }
        ensures { IfOk result (λ votes. votes ≡ first_votes (quorum_size self.now.members) (votes_in (λ s. s.commits) (slot_at self.now slot)) digest) }
    {
        match self.at(slot) {
            Some(slot) => slot.commits.first_kept(alloc, digest),
            None => Ok(Rows::new(alloc)),
        }
    }
}
