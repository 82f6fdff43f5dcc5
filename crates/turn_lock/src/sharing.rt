//! A pass is split in two, and two passes are joined.

ghost use Rattle.std.specs.Prelude.{◌≡◌, ℕ, ◌+◌, true};
ghost use Rattle.turn_lock.specs.Numbers.{greatest, without, only, united, HasAll, HasTwo, AreFirst};
ghost use Rattle.turn_lock.specs.Histories.{of_numbers, longer};
ghost use Rattle.turn_lock.specs.Views.{IsWhole, own};
ghost use Rattle.turn_lock.specs.Passes.{view, numbers, seats, IsPassOf, GoesOn};

use crate::lock::{Pass, Turn};
use crate::machine::Machine;
use crate::numbers::{greatest_of, has_all, least_of, one_number, unite};
use crate::rule::Parting;

impl<M: Machine> Turn<M> {
    /// How many seats the turn has.
    pub fn seats(&self) -> u8
        ensures { result ≡ seats self.now }
    {
        self.seats
    }

    /// Whether the pass has every number, which [`Turn::close`] asks for.
    pub fn has_every(&self, pass: &Pass<M>) -> bool
        ensures every { result ≡ true → HasAll (seats self.now) (numbers pass.now) }
        ensures missing { HasAll (seats self.now) (numbers pass.now) → result ≡ true }
    {
        has_all(&pass.numbers, self.seats)
    }

    /// Whether the pass has two numbers or more, which [`Turn::split`] asks for.
    pub fn may_split(&self, pass: &Pass<M>) -> bool
        requires pass { IsPassOf M.plays M.made self.now pass.now }
        ensures two { result ≡ true → HasTwo (numbers pass.now) }
        ensures one { HasTwo (numbers pass.now) → result ≡ true }
    {
        least_of(&pass.numbers) != greatest_of(&pass.numbers) as u64
    }

    /// Splits a pass that has two numbers or more. What comes has the greatest of them and the entries made under it; the rest stays. Both have
    /// seen what the pass had.
    pub fn split(&self, pass: &mut Pass<M>) -> Pass<M>
        requires pass { IsPassOf M.plays M.made self.now pass.old }
        requires two { HasTwo (numbers pass.old) }
        ensures pass { IsPassOf M.plays M.made self.now pass.new }
        ensures new { IsPassOf M.plays M.made self.now result }
        ensures rest { numbers pass.new ≡ without (greatest (numbers pass.old)) (numbers pass.old) }
        ensures given { numbers result ≡ only (greatest (numbers pass.old)) }
        ensures numbers { united (numbers pass.new) (numbers result) ≡ numbers pass.old }
        ensures first { (n : ℕ) → AreFirst (n + 1) (numbers pass.old) → AreFirst n (numbers pass.new) × (numbers result ≡ only (n + 1)) }
        ensures seen { ((view pass.new).seen ≡ (view pass.old).seen) × ((view result).seen ≡ (view pass.old).seen) }
        ensures own { (own (view pass.new) ≡ of_numbers (numbers pass.new) (view pass.old).seen) × (own (view result) ≡ of_numbers (numbers result) (view pass.old).seen) }
    {
        let top = greatest_of(&pass.numbers);
        let seat = self.table.shared.split_seat::<Parting>(&mut pass.seat);
        pass.numbers[top] = false;
        Pass {
            seat,
            numbers: one_number(top),
        }
    }

    /// Joins a pass into another, which then has the numbers of both and has seen what either had. Each of the two goes on in it.
    pub fn join(&self, pass: &mut Pass<M>, other: Pass<M>)
        requires pass { IsPassOf M.plays M.made self.now pass.old }
        requires other { IsPassOf M.plays M.made self.now other }
        ensures pass { IsPassOf M.plays M.made self.now pass.new }
        ensures numbers { numbers pass.new ≡ united (numbers pass.old) (numbers other) }
        ensures seen { (view pass.new).seen ≡ longer (view pass.old).seen (view other).seen }
        ensures mine { GoesOn pass.old pass.new }
        ensures theirs { GoesOn other pass.new }
        ensures whole { IsWhole (seats self.now) (view pass.new) }
    {
        let Pass { seat, numbers } = other;
        self.table.shared.join_seat::<Parting>(&mut pass.seat, seat);
        unite(&mut pass.numbers, &numbers);
        self.learn(&mut pass.seat);
    }
}
