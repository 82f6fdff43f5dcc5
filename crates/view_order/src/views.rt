//! Ordering in a cluster across views, and the calls on it.
ghost use Rattle.std.specs.Prelude.{◌≡◌, ◌+◌, ◌<◌, ◌≤◌, false, length, nat_lt, IfOk, OnOk, OnErr, IsTrue};
ghost use Rattle.std.specs.List.{list_all};
ghost use Rattle.fab_base.specs.declared.answers.Answer.{Answer};
ghost use Rattle.fab_base.specs.declared.limits.TheConstants.{GREATEST_NUMBER};
ghost use Rattle.fab_rules.specs.Shape.{IsShaped};
ghost use Rattle.fab_machine.specs.State.{wanted};
ghost use Rattle.fab_machine.specs.Attending.{attend, changes_after};
ghost use Rattle.fab_machine.specs.Changing.{asked};
ghost use Rattle.fab_machine.specs.Checkpointing.{checkpoint};
ghost use Rattle.fab_machine.specs.Proposing.{propose};
ghost use Rattle.fab_machine.specs.Serving.{served};
ghost use Rattle.fab_machine.specs.TimingOut.{timeout};
ghost use Rattle.local_order.specs.Ordering as ordering;
ghost use Rattle.view_order.specs.Views.{with_views, IsShut, can_by};

use crate::NoMemory;
use crate::asking::asked;
use crate::fields::in_field;
use crate::hearing::attend;
use crate::timing::{is_due, timeout};
use crate::trying::ViewTry;
use fab_base::{Answer, Batch, Hash32, Message, Outcomes, StableVotes, ViewChange};
use local_order::{Local, LocalTry, Order};
use std::alloc::Global;
use std::marker::Model;

/// The ordering in the cluster of one replica, across views (PBFT). Contracts see the members, the replica, its state, the ViewChanges that it
/// keeps, and whether it was shut: where memory is refused in the middle of a call, what was heard may be counted and what follows from it not
/// done, so from then on each call that could change something answers `NoMemory`.
#[derive(Debug, Drop)]
pub struct ViewOrder {
    pub(crate) order: Order,
    /// The ViewChanges of views above the entered one, in the order in which they came.
    pub(crate) changes: Vec<ViewChange>,
}

impl Model for ViewOrder {
    ghost use Rattle.view_order.specs.Views.{Views, AreViews};

    ghost Value = { Views };

    ghost view = { λ v. record { roster = v.order.roster; me = v.order.me; local = v.order.local; changes = v.changes.items; shut = v.order.shut } };

    ghost invariant = { λ v. AreViews (record { roster = v.order.roster; me = v.order.me; local = v.order.local; changes = v.changes.items; shut = v.order.shut }) };
}

impl ViewOrder {
    /// Hears a message that is shaped for these members. The answer is [`Heard`](fab_base::Answer::Heard) with what came of it:
    ///
    /// - A ViewChange is `Stray` if it is of another cluster, `OtherView` with the wanted view if its view is at most the entered one, `Twice`
    ///   if one of its signer and view is kept, and else `Taken`: it is kept. Then, where more members than may be faulty ask for views above
    ///   the wanted one, the replica asks for the least of these (PBFT, section 4.5.2); and where it is the primary of the ViewChange's view,
    ///   which isn't below the wanted one, and just a quorum is kept for it, a NewView goes to the cluster.
    /// - A NewView is `Stray` if it is of another cluster, `OtherView` with the wanted view if its view is at most the entered one or below the
    ///   wanted one, and else `Taken`: it is adopted. The low mark goes up to its base, with the proof of the first ViewChange that has it;
    ///   the slots are emptied, and those up to its top get what it chose, with a Prepare of each; then what was kept as ahead or far is
    ///   considered again. ViewChanges up to its view are let go.
    /// - Any other kind is heard as [`Order::hear`](local_order::Order::hear) has it.
    ///
    /// It fails only where memory is refused now or was before, and then the whole is shut.
    pub fn hear(&mut self, message: Message) -> Result<Local, NoMemory>
        requires { IsShaped self.old.roster message }
        ensures answer { IfOk result (λ told. told.answer ≡ (attend self.old.roster self.old.me self.old.local self.old.changes message).answer) }
        ensures outs { IfOk result (λ told. told.outs ≡ (attend self.old.roster self.old.me self.old.local self.old.changes message).outs) }
        ensures state { OnOk result (self.new ≡ with_views self.old (attend self.old.roster self.old.me self.old.local self.old.changes message).local
            (changes_after self.old.me self.old.local self.old.changes message)) }
        ensures live { OnOk result (self.old.shut ≡ false) }
        ensures err { OnErr result (IsShut self.old self.new) }
    {
        if self.order.is_shut() {
            drop(message);
            return Err(NoMemory);
        }
        let alloc = self.alloc();
        let told = attend(alloc, &mut self.order, &mut self.changes, message);
        seal(&mut self.order, told)
    }

    /// Asks for a view above the wanted one, at most 2^62 (PBFT, section 4.4). The answer is `Asked`, with the view. Proposals and votes leave
    /// the outbox, and a ViewChange goes to the cluster, with the low mark, its proof and the kept prepared certificates. It fails only where
    /// memory is refused now or was before, and then the whole is shut.
    pub fn ask(&mut self, view: u64) -> Result<Local, NoMemory>
        requires above { wanted self.old.local < view }
        requires upto { view ≤ GREATEST_NUMBER }
        ensures answer { IfOk result (λ told. told.answer ≡ (asked self.old.roster self.old.me self.old.local view (Answer.Asked view)).answer) }
        ensures outs { IfOk result (λ told. told.outs ≡ (asked self.old.roster self.old.me self.old.local view (Answer.Asked view)).outs) }
        ensures state { OnOk result (self.new
            ≡ with_views self.old (asked self.old.roster self.old.me self.old.local view (Answer.Asked view)).local self.old.changes) }
        ensures live { OnOk result (self.old.shut ≡ false) }
        ensures err { OnErr result (IsShut self.old self.new) }
    {
        if self.order.is_shut() {
            return Err(NoMemory);
        }
        let alloc = self.alloc();
        let told = asked(alloc, &mut self.order, view, Answer::Asked { view });
        seal(&mut self.order, told)
    }

    /// Is told that the replica waited long enough, whether the own cluster's certificate of the next round is kept, and whether another
    /// cluster's is known. The answer is the first of these that holds:
    ///
    /// - `Behind`, with the low mark: rounds up to it weren't executed here.
    /// - `Asked`, with the view above the wanted one: the own certificate isn't kept, the wanted view is below 2^62, and something is due: a
    ///   view is asked for already, a request waits, another cluster's certificate is known, or a slot above the executed rounds holds a batch.
    ///   It is asked for as [`ask`](ViewOrder::ask) does.
    /// - `Calm`: nothing changes.
    ///
    /// It fails only where memory is refused now or was before, and then the whole is shut.
    pub fn timeout(&mut self, own: bool, known: bool) -> Result<Local, NoMemory>
        ensures answer { IfOk result (λ told. told.answer ≡ (timeout self.old.roster self.old.me self.old.local own known).answer) }
        ensures outs { IfOk result (λ told. told.outs ≡ (timeout self.old.roster self.old.me self.old.local own known).outs) }
        ensures state { OnOk result (self.new ≡ with_views self.old (timeout self.old.roster self.old.me self.old.local own known).local self.old.changes) }
        ensures live { OnOk result (self.old.shut ≡ false) }
        ensures err { OnErr result (IsShut self.old self.new) }
    {
        if self.order.is_shut() {
            return Err(NoMemory);
        }
        let alloc = self.alloc();
        let told = timeout(alloc, &mut self.order, own, known);
        seal(&mut self.order, told)
    }

    /// Proposes the next batch, where one is due: [`Order::propose`](local_order::Order::propose).
    pub fn propose(&mut self, nudged: bool, known: bool) -> Result<Local, NoMemory>
        ensures answer { IfOk result (λ told. told.answer ≡ (propose self.old.roster self.old.me self.old.local nudged known).answer) }
        ensures outs { IfOk result (λ told. told.outs ≡ (propose self.old.roster self.old.me self.old.local nudged known).outs) }
        ensures state { OnOk result (self.new
            ≡ with_views self.old (propose self.old.roster self.old.me self.old.local nudged known).local self.old.changes) }
        ensures live { OnOk result (self.old.shut ≡ false) }
        ensures err { OnErr result (IsShut self.old self.new) }
    {
        self.order.propose(nudged, known)
    }

    /// Is told of an executed round: [`Order::served`](local_order::Order::served).
    pub fn served(
        &mut self,
        round: u64,
        batch: &Batch,
        outcomes: &Outcomes,
        digest: Hash32,
    ) -> Result<(), NoMemory>
        requires round { round ≡ self.old.local.executed + 1 }
        requires upto { round ≤ GREATEST_NUMBER }
        requires clients { IsTrue (list_all (λ x. nat_lt x.client.number (length self.old.roster.homes)) batch.now) }
        ensures state { OnOk result (self.new
            ≡ with_views self.old (served self.old.roster self.old.local round batch.now outcomes.now digest) self.old.changes) }
        ensures live { OnOk result (self.old.shut ≡ false) }
        ensures err { OnErr result (IsShut self.old self.new) }
    {
        in_field(&digest);
        self.order.served(round, batch, outcomes, digest)
    }

    /// Votes for a round or moves the low mark: [`Order::checkpoint`](local_order::Order::checkpoint).
    pub fn checkpoint(&mut self) -> Result<Local, NoMemory>
        ensures answer { IfOk result (λ told. told.answer ≡ (checkpoint self.old.roster self.old.me self.old.local).answer) }
        ensures outs { IfOk result (λ told. told.outs ≡ (checkpoint self.old.roster self.old.me self.old.local).outs) }
        ensures state { OnOk result (self.new ≡ with_views self.old (checkpoint self.old.roster self.old.me self.old.local).local self.old.changes) }
        ensures live { OnOk result (self.old.shut ≡ false) }
        ensures err { OnErr result (IsShut self.old self.new) }
    {
        self.order.checkpoint()
    }

    /// Whether the call would do anything: true exactly where it would answer `Proposed`, `Voted`, `Moved` or `Asked`, want of memory aside,
    /// and never where the whole is shut. Takes no memory.
    pub fn can(&self, what: ViewTry) -> bool
        ensures { result ≡ can_by self.now what }
    {
        match what {
            ViewTry::Propose { nudged, known } => {
                self.order.can(LocalTry::Propose { nudged, known })
            }
            ViewTry::Checkpoint => self.order.can(LocalTry::Checkpoint),
            ViewTry::Timeout { own, known } => {
                !self.order.is_shut() && is_due(&self.order, own, known)
            }
        }
    }

    /// The entered view, from 0.
    pub fn view(&self) -> u64
        ensures { result ≡ self.now.local.view }
    {
        self.order.view()
    }

    /// The view that was asked for and isn't entered: `None` exactly where there is none.
    pub fn changing(&self) -> Option<u64>
        ensures { result ≡ self.now.local.changing }
    {
        self.order.changing()
    }

    /// The next slot to propose, from 1.
    pub fn next(&self) -> u64
        ensures { result ≡ self.now.local.next }
    {
        self.order.next()
    }

    /// The low mark, at first 0: the last round that this replica knows to be stable. The slots up to it are over.
    pub fn low(&self) -> u64
        ensures { result ≡ self.now.local.slots.low }
    {
        self.order.low()
    }

    /// The proof of the low mark (PBFT, section 4.3): Checkpoints of a quorum for it. It is empty at 0.
    pub fn low_proof(&self) -> &StableVotes
        ensures { result.now ≡ self.now.local.proof }
    {
        self.order.low_proof()
    }

    /// Where its memory comes from.
    fn alloc(&self) -> Global {
        *self.changes.allocator()
    }
}

/// The same, and the order is shut where memory was refused.
fn seal(order: &mut Order, told: Result<Local, NoMemory>) -> Result<Local, NoMemory>
    ensures told { result ≡ told }
    ensures same { OnOk told (order.new ≡ order.old) }
    ensures shut { OnErr told (ordering.IsShut order.old order.new) }
{
    if told.is_err() {
        order.shut();
    }
    told
}
