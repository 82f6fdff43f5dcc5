//! The steps of a call: the machine is claimed, taken out of its slot, put back, what it made is recorded, and it is released.

ghost use Rattle.std.specs.Prelude.{◌≡◌, ◌≢◌, ℕ, ◌≤◌, ◌<◌, List, [], ◌∷◌, ◌++◌, ◌^◌, length, IfOk, IfErr, Option, Some, None, true, false};
ghost use Rattle.turn_lock.specs.Numbers.{has};
ghost use Rattle.turn_lock.specs.Histories.{IsStartOf, Legal, entries};
ghost use Rattle.turn_lock.specs.Views.{IsPart, with_mark, own};
ghost use Rattle.turn_lock.specs.declared.known.Part.{Part};
ghost use mathlib.Core.Option.{some};
ghost use lib.ListN.{get_elem?};

use crate::known::Known;
use crate::lock::Turn;
use crate::machine::Machine;
use crate::rule::{Claim, Learn, Look, Record, Release};
use atomic_table::Seat;

impl<M: Machine> Turn<M> {
    /// Claims the machine under this number. Answers 0 where that succeeded, and else the number of the seat that has it.
    pub(crate) fn claim(
        &self,
        pass: &mut Seat<Option<M>, Known<M::Entry, M::Made>>,
        number: u64,
    ) -> u64
        requires pass { (pass.old.table_id ≡ self.now.table.shared.table_id) × (pass.old.me.1 ≡ []) × (pass.old.me.0.mark ≡ 0) × (pass.old.me.0.parts ≡ []) }
        requires number { (0 < number) × (has pass.old.me.0.numbers number ≡ true) }
        ensures same { (pass.new.table_id ≡ pass.old.table_id) × (pass.new.id ≡ pass.old.id) }
        ensures got { result ≡ 0 → (pass.new.me.0 ≡ with_mark pass.old.me.0 number pass.new.me.0.seen) × IsStartOf pass.old.me.0.seen pass.new.me.0.seen × (own pass.new.me.0 ≡ own pass.old.me.0) × ((d : M.Made) → pass.old.me.0.made ≡ Some d → Legal M.plays d pass.old.me.0.seats pass.new.me.0.seen)
            × ((m : M) × (pass.new.me.1 ≡ (0, Some m) ∷ []) × (M.journal m ≡ entries pass.new.me.0.seen) × ((d : M.Made) → pass.old.me.0.made ≡ Some d → M.made m ≡ d)) }
        ensures busy { result ≢ 0 → (pass.new.me ≡ pass.old.me) × (has pass.old.me.0.numbers result ≡ false) × ((d : M.Made) → pass.old.me.0.made ≡ Some d → result ≤ pass.old.me.0.seats) }
    {
        self.table
            .shared
            .compare_exchange::<Claim>(pass, 0, 0, number)
    }

    /// Records the entry that the machine has made, which is back in its slot.
    pub(crate) fn record(&self, pass: &mut Seat<Option<M>, Known<M::Entry, M::Made>>)
        requires pass { (pass.old.table_id ≡ self.now.table.shared.table_id) × (pass.old.me.0.mark ≢ 0) × (pass.old.me.0.parts ≡ []) × (pass.old.me.0.made ≡ Some (M.made self.now.table.shared.key.machine.value)) }
        requires held { (m : M) × (call : M.Call) × (answer : M.Answer) × (e : M.Entry) × (pass.old.me.1 ≡ (0, Some m) ∷ []) × (M.journal m ≡ entries pass.old.me.0.seen ++ e ∷ []) × M.plays (M.made self.now.table.shared.key.machine.value) (entries pass.old.me.0.seen) call answer (Some e) × (length (M.journal m) < 2 ^ 64) }
        ensures same { (pass.new.table_id ≡ pass.old.table_id) × (pass.new.id ≡ pass.old.id) × (pass.new.me.1 ≡ pass.old.me.1) × (pass.new.me.0 ≡ with_mark pass.old.me.0 pass.old.me.0.mark pass.new.me.0.seen) }
        ensures legal { (d : M.Made) → pass.old.me.0.made ≡ Some d → Legal M.plays d pass.old.me.0.seats pass.new.me.0.seen }
        ensures told { (m : M) (rest : List (ℕ × Option M)) (e : M.Entry) → pass.old.me.1 ≡ (0, Some m) ∷ rest → M.journal m ≡ entries pass.old.me.0.seen ++ e ∷ [] → pass.new.me.0.seen ≡ pass.old.me.0.seen ++ (pass.old.me.0.mark, e) ∷ [] }
    {
        self.table.shared.fetch_add::<Record>(pass, 1, 1);
    }

    /// How many entries the history has, for the pass that holds the machine.
    pub(crate) fn look(&self, pass: &mut Seat<Option<M>, Known<M::Entry, M::Made>>) -> u64
        requires pass { (pass.old.table_id ≡ self.now.table.shared.table_id) × (pass.old.me.0.mark ≢ 0) }
        ensures same { (pass.new.table_id ≡ pass.old.table_id) × (pass.new.id ≡ pass.old.id) × (pass.new.me ≡ pass.old.me) }
        ensures told { result ≡ length pass.old.me.0.seen }
    {
        self.table.shared.load::<Look>(pass, 1)
    }

    /// Lets the machine go.
    pub(crate) fn release(&self, pass: &mut Seat<Option<M>, Known<M::Entry, M::Made>>)
        requires pass { (pass.old.table_id ≡ self.now.table.shared.table_id) × (pass.old.me.0.mark ≢ 0) }
        requires held { (m : M) × (pass.old.me.1 ≡ (0, Some m) ∷ []) × (M.journal m ≡ entries pass.old.me.0.seen) × (M.made m ≡ M.made self.now.table.shared.key.machine.value) }
        ensures same { (pass.new.table_id ≡ pass.old.table_id) × (pass.new.id ≡ pass.old.id) }
        ensures told { pass.new.me ≡ (with_mark pass.old.me.0 0 pass.old.me.0.seen, []) }
    {
        self.table.shared.store::<Release>(pass, 0, 0);
    }

    /// Learns what is true of the two that were joined.
    pub(crate) fn learn(&self, pass: &mut Seat<Option<M>, Known<M::Entry, M::Made>>)
        requires pass { pass.old.table_id ≡ self.now.table.shared.table_id }
        ensures same { (pass.new.table_id ≡ pass.old.table_id) × (pass.new.id ≡ pass.old.id) × (pass.new.me.1 ≡ pass.old.me.1) × (pass.new.me.0 ≡ with_mark pass.old.me.0 pass.old.me.0.mark pass.old.me.0.seen) }
        ensures told { (k : ℕ) (p : Part M.Entry) → get_elem? pass.old.me.0.parts k ≡ some p → IsPart pass.old.me.0.numbers pass.old.me.0.seen p }
    {
        self.table.shared.load::<Learn>(pass, 0);
    }

    /// Takes the machine out, or tells the number of the seat that has it.
    pub(crate) fn take(
        &self,
        pass: &mut Seat<Option<M>, Known<M::Entry, M::Made>>,
        number: u64,
    ) -> Result<M, u64>
        requires pass { (pass.old.table_id ≡ self.now.table.shared.table_id) × (pass.old.me.1 ≡ []) × (pass.old.me.0.mark ≡ 0) × (pass.old.me.0.parts ≡ []) × (pass.old.me.0.made ≡ Some (M.made self.now.table.shared.key.machine.value)) }
        requires number { (0 < number) × (has pass.old.me.0.numbers number ≡ true) }
        ensures same { (pass.new.table_id ≡ pass.old.table_id) × (pass.new.id ≡ pass.old.id) }
        ensures busy { IfErr result (λ n. (n ≢ 0) × (pass.new.me ≡ pass.old.me) × (has pass.old.me.0.numbers n ≡ false) × (n ≤ pass.old.me.0.seats)) }
        ensures view { IfOk result (λ m. (pass.new.me.0 ≡ with_mark pass.old.me.0 number pass.new.me.0.seen) × (pass.new.me.1 ≡ (0, None) ∷ [])) }
        ensures seen { IfOk result (λ m. IsStartOf pass.old.me.0.seen pass.new.me.0.seen × (own pass.new.me.0 ≡ own pass.old.me.0) × Legal M.plays (M.made self.now.table.shared.key.machine.value) pass.old.me.0.seats pass.new.me.0.seen) }
        ensures machine { IfOk result (λ m. (M.journal m ≡ entries pass.new.me.0.seen) × (M.made m ≡ M.made self.now.table.shared.key.machine.value)) }
    {
        let found = self.claim(pass, number);
        if found != 0 {
            return Err(found);
        }
        match self.table.shared.exchange(pass, 0, None) {
            None => unreachable!(),
            Some(machine) => Ok(machine),
        }
    }

    /// Puts the machine back into its slot.
    pub(crate) fn put_in(&self, pass: &mut Seat<Option<M>, Known<M::Entry, M::Made>>, machine: M)
        requires pass { (pass.old.table_id ≡ self.now.table.shared.table_id) × (pass.old.me.1 ≡ (0, None) ∷ []) }
        ensures same { (pass.new.table_id ≡ pass.old.table_id) × (pass.new.id ≡ pass.old.id) }
        ensures told { pass.new.me ≡ (pass.old.me.0, (0, Some machine) ∷ []) }
    {
        match self.table.shared.exchange(pass, 0, Some(machine)) {
            None => {}
            Some(_other) => unreachable!(),
        }
    }

    /// Puts back a machine that has made no entry, and lets it go.
    pub(crate) fn put_back(&self, pass: &mut Seat<Option<M>, Known<M::Entry, M::Made>>, machine: M)
        requires pass { (pass.old.table_id ≡ self.now.table.shared.table_id) × (pass.old.me.1 ≡ (0, None) ∷ []) × (pass.old.me.0.mark ≢ 0) }
        requires machine { (M.journal machine ≡ entries pass.old.me.0.seen) × (M.made machine ≡ M.made self.now.table.shared.key.machine.value) }
        ensures same { (pass.new.table_id ≡ pass.old.table_id) × (pass.new.id ≡ pass.old.id) }
        ensures told { pass.new.me ≡ (with_mark pass.old.me.0 0 pass.old.me.0.seen, []) }
    {
        self.put_in(pass, machine);
        self.look(pass);
        self.release(pass);
    }

    /// Puts back a machine that has made an entry, records the entry, and lets the machine go.
    pub(crate) fn put_back_grown(
        &self,
        pass: &mut Seat<Option<M>, Known<M::Entry, M::Made>>,
        machine: M,
    )
        requires pass { (pass.old.table_id ≡ self.now.table.shared.table_id) × (pass.old.me.1 ≡ (0, None) ∷ []) × (pass.old.me.0.mark ≢ 0) × (pass.old.me.0.parts ≡ []) × (pass.old.me.0.made ≡ Some (M.made self.now.table.shared.key.machine.value)) }
        requires machine { (call : M.Call) × (answer : M.Answer) × (e : M.Entry) × (M.journal machine ≡ entries pass.old.me.0.seen ++ e ∷ []) × M.plays (M.made self.now.table.shared.key.machine.value) (entries pass.old.me.0.seen) call answer (Some e) × (length (M.journal machine) < 2 ^ 64) × (M.made machine ≡ M.made self.now.table.shared.key.machine.value) }
        ensures same { (pass.new.table_id ≡ pass.old.table_id) × (pass.new.id ≡ pass.old.id) }
        ensures view { (pass.new.me.0 ≡ with_mark pass.old.me.0 0 pass.new.me.0.seen) × (pass.new.me.1 ≡ []) }
        ensures told { (e : M.Entry) → M.journal machine ≡ entries pass.old.me.0.seen ++ e ∷ [] → pass.new.me.0.seen ≡ pass.old.me.0.seen ++ (pass.old.me.0.mark, e) ∷ [] }
        ensures legal { Legal M.plays (M.made self.now.table.shared.key.machine.value) pass.old.me.0.seats pass.new.me.0.seen }
    {
        self.put_in(pass, machine);
        self.record(pass);
        self.release(pass);
    }
}
