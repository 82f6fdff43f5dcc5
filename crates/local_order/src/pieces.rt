//! The pieces of which a change of view is made (PBFT, section 4.4), and what is read for it: a crate above puts them together.
ghost use Rattle.std.specs.Prelude.{◌≡◌, ◌<◌, ◌≤◌, ◌++◌, ◌∷◌, [], false, length, nat_le, Some, IfOk, OnOk, OnErr};
ghost use Rattle.fab_base.specs.Roster.{size_of};
ghost use Rattle.fab_base.specs.declared.limits.TheConstants.{GREATEST_NUMBER, MOST_MEMBERS};
ghost use Rattle.pbft_slots.specs.Window.{after_pre_prepare};
ghost use Rattle.fab_machine.specs.Adopting.{entering};
ghost use Rattle.fab_machine.specs.Items.{to_cluster};
ghost use Rattle.fab_machine.specs.LocalState.{IsHeldBatch, IsLowShown};
ghost use Rattle.local_order.specs.Ordering.{with_local, IsShut};

use crate::NoMemory;
use crate::ordering::Order;
use fab_base::{Batch, Hash32, Message, PreparedCert, ReplicaId, Rows, StableVotes, Vote};
use fab_machine::Outs;
use pbft_slots::Slots;

impl Order {
    /// The view, above the entered one, is asked for from now on and not entered (PBFT, section 4.4). Takes no memory.
    pub fn want(&mut self, view: u64)
        requires { self.old.local.view < view }
        ensures { self.new ≡ record self.old { local = record self.old.local { changing = Some view } } }
    {
        self.state.want(view);
    }

    /// A view above the entered one is entered, at a low mark that isn't below the present one and may be shown with this proof, and nothing was
    /// heard of its slots (PBFT, section 4.4). Gives the messages that were kept as ahead or far. It fails only where memory is refused now or
    /// was before, and then the order is shut.
    pub fn enter(
        &mut self,
        view: u64,
        low: u64,
        proof: StableVotes,
        next: u64,
    ) -> Result<Rows<Message>, NoMemory>
        requires above { self.old.local.view < view }
        requires upto { view ≤ GREATEST_NUMBER }
        requires up { self.old.local.slots.low ≤ low }
        requires shown { IsLowShown self.old.roster self.old.me low proof }
        requires some { 1 ≤ next }
        ensures kept { IfOk result (λ kept. kept ≡ self.old.local.kept) }
        ensures state { OnOk result (self.new ≡ with_local self.old (entering self.old.local view low proof next)) }
        ensures live { OnOk result (self.old.shut ≡ false) }
        ensures err { OnErr result (IsShut self.old self.new) }
    {
        if self.shut {
            drop(proof);
            return Err(NoMemory);
        }
        let kept = self.state.enter(view, low, proof, next);
        self.shut = kept.is_err();
        kept
    }

    /// A slot of the view gets a batch, where it is open and holds none. Nothing follows from it. Takes no memory.
    pub fn fill(&mut self, slot: u64, digest: Hash32, batch: Batch)
        requires { IsHeldBatch self.old.roster self.old.me (record { digest = digest; batch = batch }) }
        ensures { self.new ≡ record self.old { local = record self.old.local { slots = after_pre_prepare self.old.local.slots slot (record { digest = digest; batch = batch }) } } }
    {
        self.state.fill(slot, digest, batch);
    }

    /// Puts the message for all members of the own cluster, behind what was put before. It fails only where memory is refused, and lets the
    /// message go.
    pub fn put(&self, message: Message, outs: &mut Outs) -> Result<(), NoMemory>
        ensures { OnOk result (outs.new ≡ outs.old ++ to_cluster self.now.roster self.now.me message ∷ []) }
    {
        self.state.put(message, outs)
    }

    /// Shuts the order: memory was refused between two calls that belong together, so what it remembers may be half of what it ought to.
    /// From then on each call that could change something answers `NoMemory`.
    pub fn shut(&mut self)
        ensures { IsShut self.old self.new }
    {
        self.shut = true;
    }

    /// Whether the order was shut.
    pub fn is_shut(&self) -> bool
        ensures { result ≡ self.now.shut }
    {
        self.shut
    }

    /// The replica that orders.
    pub fn me(&self) -> ReplicaId
        ensures { result ≡ self.now.me }
    {
        self.state.me
    }

    /// How many members its cluster has.
    pub fn size(&self) -> u8
        ensures is { result ≡ size_of self.now.roster self.now.me.cluster }
        ensures limits { (1 ≤ result) × (result ≤ MOST_MEMBERS) }
    {
        self.state.members.size(self.state.me.cluster)
    }

    /// The open slots of the view.
    pub fn slots(&self) -> &Slots<Vote>
        ensures { result.now ≡ self.now.local.slots }
    {
        &self.state.slots
    }

    /// For each open slot, in the same order, the kept prepared certificate.
    pub fn prepared(&self) -> &[Option<PreparedCert>]
        ensures { result.now ≡ self.now.local.prepared }
    {
        self.state.prepared.as_slice()
    }

    /// Whether a request waits. Takes no memory.
    pub fn waits(&self) -> bool
        ensures { result ≡ nat_le 1 (length self.now.local.waiting) }
    {
        self.state.pool.waits()
    }

    /// The number of executed rounds that the order was told of.
    pub fn executed(&self) -> u64
        ensures { result ≡ self.now.local.executed }
    {
        self.state.pool.executed()
    }
}
