//! The output worker.

ghost use Rattle.std.specs.Prelude.{◌≡◌, ◌≢◌, ◌++◌, ◌∷◌, [], None, IsNone, option_to_list};
ghost use Rattle.run_words.specs.declared.movers.Mover as movers;
ghost use Rattle.turn_lock.specs.Views.{own};
ghost use Rattle.turn_lock.specs.Passes.{view, first_machine};
ghost use Rattle.party_turn.specs.Turns.{PartyTurn, IsPartyPass};
ghost use Rattle.stage_workers.specs.declared.look.Look.TheVariants.{Idle, NoMemory as NoMemoryLook};
ghost use Rattle.stage_looks.specs.Acts.{IsStill};
ghost use Rattle.stage_looks.specs.Sending.{AreApart, AreUnused, Delivers, FitsOutput, IsSameOutput, unsent, put_by};

use crate::outlets::{Outlet, post};
use crate::sending::{Sent, emit};
use crossbeam_utils::Backoff;
use party_turn::Acting;
use run_words::{Parcel, Party};
use stage_workers::Look;
use std::alloc::Global;
use std::vec::IntoIter;
use turn_lock::{Pass, Turn};

/// What the output worker owns.
#[derive(Drop)]
pub struct OutputHand<P: Party> {
    /// Its pass of the turn.
    pub act: Pass<Acting<P>>,
    /// The links to the receivers, one to each.
    pub outlets: Vec<Outlet>,
    /// The parcel that it is sending: it passes as often as it has still to be sent.
    pub first: Option<Parcel>,
    /// The parcels that it has to send after that one, in order.
    pub rest: IntoIter<Parcel, Global>,
    /// How many entries there were when it last found nothing to send.
    pub told: u64,
}

impl<P: Party> OutputHand<P> {
    /// A hand that has sent nothing yet. Its pass is one under whose numbers nothing was entered, and on its links, of which no two lead to one
    /// receiver, nothing was pushed. Takes no memory.
    pub fn new(alloc: Global, act: Pass<Acting<P>>, outlets: Vec<Outlet>) -> OutputHand<P>
        requires fresh { own (view act) ≡ [] }
        requires apart { AreApart outlets.items }
        requires unused { AreUnused outlets.items }
        ensures fits { (turn : PartyTurn P) → IsPartyPass P.made turn act → FitsOutput P.made turn result }
        ensures is { (result.act ≡ act) × (result.outlets ≡ outlets) × (unsent result ≡ []) × (result.told ≡ 0) }
    {
        OutputHand {
            act,
            outlets,
            first: None,
            rest: Vec::new(alloc).into_iter(),
            told: 0,
        }
    }

    /// The first of the parcels that it has to send.
    fn next_parcel(&mut self) -> Option<Parcel>
        ensures parcels { unsent self.old ≡ option_to_list result ++ unsent self.new }
        ensures none { IsNone result → unsent self.new ≡ [] }
        ensures free { self.new.first ≡ None }
        ensures same { (self.new.act ≡ self.old.act) × (self.new.outlets ≡ self.old.outlets) × (self.new.told ≡ self.old.told) }
    {
        match self.first.take() {
            Some(parcel) => Some(parcel),
            None => self.rest.next(),
        }
    }

    /// Sends a parcel once.
    fn send(&mut self, turn: &Turn<Acting<P>>, parcel: Parcel) -> Look
        requires delivers { Delivers P.made turn.now self.old (parcel ∷ unsent self.old) }
        requires free { self.old.first ≡ None }
        ensures fits { FitsOutput P.made turn.now self.new }
        ensures same { IsSameOutput self.old self.new }
        ensures busy { result ≢ Idle }
        ensures refused { result ≡ NoMemoryLook → (unsent self.new ≡ parcel ∷ unsent self.old) × (self.new.outlets.items ≡ self.old.outlets.items) }
    {
        let _ = turn;
        let (left, look) = post(&mut self.outlets, parcel);
        self.first = left;
        look
    }

    /// Takes in hand the parcels of the first item that waits, in one claim of the turn.
    fn fetch(&mut self, turn: &Turn<Acting<P>>) -> Look
        requires delivers { Delivers P.made turn.now self.old [] }
        requires none { unsent self.old ≡ [] }
        requires free { self.old.first ≡ None }
        ensures fits { FitsOutput P.made turn.now self.new }
        ensures same { IsSameOutput self.old self.new }
        ensures idle { result ≡ Idle → (unsent self.new ≡ []) × IsStill (P.made (first_machine turn.now).first) movers.Mover.Emit self.new.told (view self.new.act) }
        ensures refused { result ≡ NoMemoryLook → (unsent self.new ≡ []) × (self.new.outlets.items ≡ self.old.outlets.items) }
    {
        match emit(turn, &mut self.act) {
            Sent::Out(parcels) => {
                self.rest = parcels.into_vec().into_iter();
                Look::Moved
            }
            Sent::Nothing(entries) => {
                self.told = entries;
                Look::Idle
            }
            Sent::Lost => Look::NoMemory,
            Sent::Busy => {
                Backoff::new().snooze();
                Look::Moved
            }
        }
    }

    /// One look: it pushes one letter of the first parcel in hand, or else takes in hand the parcels of the first item that waits, in one claim of
    /// the turn.
    ///
    /// `Idle` comes where it had nothing in hand and there was nothing to send after as many entries as `told` then says. `NoMemory` comes where
    /// memory was refused, to the party or to a further copy of a parcel that passes more than once: then it sent nothing, and what it had in
    /// hand it has still. Where the link is full or another worker has the turn it rests for a moment, and answers `Moved`.
    pub fn look(&mut self, turn: &Turn<Acting<P>>) -> Look
        requires fits { FitsOutput P.made turn.now self.old }
        ensures fits { FitsOutput P.made turn.now self.new }
        ensures same { IsSameOutput self.old self.new }
        ensures idle { result ≡ Idle → (unsent self.new ≡ []) × IsStill (P.made (first_machine turn.now).first) movers.Mover.Emit self.new.told (view self.new.act) }
        ensures refused { result ≡ NoMemoryLook → (unsent self.new ≡ unsent self.old) × (self.new.outlets.items ≡ self.old.outlets.items) }
    {
        match self.next_parcel() {
            Some(parcel) => self.send(turn, parcel),
            None => self.fetch(turn),
        }
    }
}
