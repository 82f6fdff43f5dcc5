//! One call of the machine, and the number of its entries.

ghost use Rattle.std.specs.Prelude.{◌≡◌, length, IfOk, IfErr, IsOk};
ghost use Rattle.turn_lock.specs.Numbers.{HasAll};
ghost use Rattle.turn_lock.specs.Histories.{IsStartOf};
ghost use Rattle.turn_lock.specs.Views.{Acted, IsOther, IsWhole, own};
ghost use Rattle.turn_lock.specs.Passes.{view, numbers, seats, first_machine, IsPassOf};

use crate::lock::{Busy, Pass, Turn};
use crate::machine::Machine;
use crate::numbers::least_of;
use crossbeam_utils::Backoff;
use std::sync::Wait;

impl<M: Machine> Turn<M> {
    /// Makes one call, in one claim, and waits for nobody. What the call enters stands in the history under the least number of the pass.
    ///
    /// `Busy` comes only where the claim found that another seat has the machine; it hands the call back, and the pass is as it was. A pass
    /// with every number is never told it.
    pub fn act(&self, pass: &mut Pass<M>, call: M::Call) -> Result<M::Answer, Busy<M::Call>>
        requires pass { IsPassOf M.plays M.made self.now pass.old }
        requires call { M.takes (M.made (first_machine self.now)) call }
        ensures pass { IsPassOf M.plays M.made self.now pass.new }
        ensures numbers { numbers pass.new ≡ numbers pass.old }
        ensures acted { IfOk result (λ answer. Acted M.plays (M.made (first_machine self.now)) (view pass.old) call answer (view pass.new)) }
        ensures back { IfErr result (λ busy. (busy.call ≡ call) × (view pass.new ≡ view pass.old)) }
        ensures other { IfErr result (λ busy. IsOther (seats self.now) (numbers pass.old) busy.seat) }
        ensures free { HasAll (seats self.now) (numbers pass.old) → IsOk result }
        ensures whole { IsWhole (seats self.now) (view pass.new) }
    {
        let number = least_of(&pass.numbers);
        match self.take(&mut pass.seat, number) {
            Err(seat) => Err(Busy { call, seat }),
            Ok(mut machine) => {
                let before = machine.entries();
                let answer = machine.play(call);
                let after = machine.entries();
                if after == before {
                    self.put_back(&mut pass.seat, machine);
                    return Ok(answer);
                }
                self.put_back_grown(&mut pass.seat, machine);
                Ok(answer)
            }
        }
    }

    /// Makes one call, trying until the machine is free. It waits for as long as other seats have the machine.
    pub fn act_until<R: Wait>(&self, rt: &R, pass: &mut Pass<M>, call: M::Call) -> M::Answer
        requires pass { IsPassOf M.plays M.made self.now pass.old }
        requires call { M.takes (M.made (first_machine self.now)) call }
        ensures pass { IsPassOf M.plays M.made self.now pass.new }
        ensures numbers { numbers pass.new ≡ numbers pass.old }
        ensures acted { Acted M.plays (M.made (first_machine self.now)) (view pass.old) call result (view pass.new) }
        ensures whole { IsWhole (seats self.now) (view pass.new) }
    {
        let mut call = call;
        let backoff = Backoff::new();
        for _ in rt.forever() {
            match self.act(pass, call) {
                Ok(answer) => return answer,
                Err(
                    Busy {
                        call: again,
                        seat: _,
                    },
                ) => call = again,
            }
            backoff.snooze();
        }
        unreachable!()
    }

    /// How many entries the history has; the pass has then seen them all. `Busy` is as of [`Turn::act`].
    pub fn count(&self, pass: &mut Pass<M>) -> Result<u64, Busy<()>>
        requires pass { IsPassOf M.plays M.made self.now pass.old }
        ensures pass { IsPassOf M.plays M.made self.now pass.new }
        ensures numbers { numbers pass.new ≡ numbers pass.old }
        ensures counted { IfOk result (λ n. n ≡ length (view pass.new).seen) }
        ensures seen { IfOk result (λ n. IsStartOf (view pass.old).seen (view pass.new).seen × (own (view pass.new) ≡ own (view pass.old))) }
        ensures back { IfErr result (λ busy. view pass.new ≡ view pass.old) }
        ensures other { IfErr result (λ busy. IsOther (seats self.now) (numbers pass.old) busy.seat) }
        ensures free { HasAll (seats self.now) (numbers pass.old) → IsOk result }
        ensures whole { IsWhole (seats self.now) (view pass.new) }
    {
        let number = least_of(&pass.numbers);
        let found = self.claim(&mut pass.seat, number);
        if found != 0 {
            return Err(Busy {
                call: (),
                seat: found,
            });
        }
        let count = self.look(&mut pass.seat);
        self.release(&mut pass.seat);
        Ok(count)
    }
}
