//! Checkpoints and the low mark (PBFT, section 4.3).
ghost use Rattle.std.specs.Prelude.{[], ◌≡◌, ◌≤◌, ◌++◌, length, drop, replicate, None, IfOk, OnOk, IsTrue};
ghost use Rattle.fab_base.specs.declared.limits.TheConstants.{GREATEST_NUMBER};
ghost use Rattle.fab_base.specs.Roster.{is_replica};
ghost use Rattle.fab_base.specs.declared.answers.Answer.{Answer};
ghost use Rattle.fab_rules.specs.Lists.{In, greatest};
ghost use Rattle.fab_rules.specs.Shape.{IsShaped};
ghost use Rattle.checkpoint_core.specs.Checkpoints.{proof_of};
ghost use Rattle.fab_machine.specs.LocalState.{IsLocalState};
ghost use Rattle.fab_machine.specs.Voting.{unmoved};
ghost use Rattle.fab_machine.specs.Hearing.{hear, hear_checkpoint};
ghost use Rattle.fab_machine.specs.Checkpointing.{voted, stable_rounds, moved_places, after_move, heard_again, next_due, move_to, checkpoint};
ghost use Rattle.fab_machine.specs.Step.{can_checkpoint};
ghost use Rattle.local_order.specs.Inside.{moved, IsSame};

use crate::NoMemory;
use crate::local::Local;
use crate::state::{Due, State};
use fab_base::{Answer, Bytes, Message, PreparedCert, Rows, StableVote, StableVotes, Take};
use fab_machine::Outs;

impl State {
    /// Hears a Checkpoint of a member: of each the first one for a round counts.
    pub(crate) fn hear_checkpoint(&mut self, vote: StableVote) -> Result<Local, NoMemory>
        requires { IsTrue (is_replica self.old.roster vote.signer) }
        ensures answer { IfOk result (λ told. told.answer ≡ (hear_checkpoint self.old.me self.old.local vote).answer) }
        ensures outs { IfOk result (λ told. told.outs ≡ (hear_checkpoint self.old.me self.old.local vote).outs) }
        ensures state { OnOk result (self.new ≡ moved self.old (hear_checkpoint self.old.me self.old.local vote).local) }
        ensures same { IsSame self.old self.new }
    {
        if vote.signer.cluster != self.me.cluster {
            drop(vote);
            return Ok(Local {
                answer: Answer::Heard(Take::Stray),
                outs: Outs::new(self.alloc()),
            });
        }
        let answer = self.checkpoints.vote(vote)?;
        Ok(Local {
            answer: Answer::Heard(answer),
            outs: Outs::new(self.alloc()),
        })
    }

    /// Votes for the first round for which a Checkpoint is due, or else moves the low mark to the greatest stable round that was executed.
    pub(crate) fn checkpoint(&mut self) -> Result<Local, NoMemory>
        requires { IsLocalState self.old.roster self.old.me self.old.local }
        ensures answer { IfOk result (λ told. told.answer ≡ (checkpoint self.old.roster self.old.me self.old.local).answer) }
        ensures outs { IfOk result (λ told. told.outs ≡ (checkpoint self.old.roster self.old.me self.old.local).outs) }
        ensures state { OnOk result (self.new ≡ moved self.old (checkpoint self.old.roster self.old.me self.old.local).local) }
        ensures same { IsSame self.old self.new }
    {
        match self.due.first() {
            Some(due) => {
                let due = *due;
                self.vote_for(due)
            }
            None => self.move_to(self.greatest_stable()),
        }
    }

    /// Whether `checkpoint` would vote for a round or move the low mark. Takes no memory.
    pub(crate) fn can_checkpoint(&self) -> bool
        ensures { result ≡ can_checkpoint self.now.roster self.now.me self.now.local }
    {
        !self.due.is_empty() || self.greatest_stable() > 0
    }

    /// A Checkpoint of the first round that is due, which from now on isn't.
    fn vote_for(&mut self, due: Due) -> Result<Local, NoMemory>
        requires { 1 ≤ length self.old.local.due }
        ensures answer { IfOk result (λ told. told.answer ≡ (voted self.old.roster self.old.me self.old.local due (drop 1 self.old.local.due)).answer) }
        ensures outs { IfOk result (λ told. told.outs ≡ (voted self.old.roster self.old.me self.old.local due (drop 1 self.old.local.due)).outs) }
        ensures state { OnOk result (self.new ≡ moved self.old (voted self.old.roster self.old.me self.old.local due (drop 1 self.old.local.due)).local) }
        ensures same { IsSame self.old self.new }
    {
        let outs = self.put_alone(Message::Checkpoint(StableVote {
            signer: self.me,
            round: due.round,
            digest: due.digest,
            sig: Bytes::new(self.alloc()),
        }))?;
        self.due.remove(0);
        Ok(Local {
            answer: Answer::Voted { round: due.round },
            outs,
        })
    }

    /// The greatest of the stable rounds above the low mark that were executed, or 0 where there is none. Takes no memory.
    fn greatest_stable(&self) -> u64
        ensures { result ≡ greatest (stable_rounds self.now.local) }
    {
        let mut greatest = 0;
        for round in self.slots.low() + 1..self.pool.executed() + 1 {
            if self.checkpoints.stable(round).is_some() {
                greatest = round;
            }
        }
        greatest
    }

    /// Moves the low mark to the greatest of the stable rounds, if there is one.
    fn move_to(&mut self, low: u64) -> Result<Local, NoMemory>
        requires low { low ≡ greatest (stable_rounds self.old.local) }
        requires whole { IsLocalState self.old.roster self.old.me self.old.local }
        requires none_due { self.old.local.due ≡ [] }
        ensures answer { IfOk result (λ told. told.answer ≡ (move_to self.old.roster self.old.me self.old.local low).answer) }
        ensures outs { IfOk result (λ told. told.outs ≡ (move_to self.old.roster self.old.me self.old.local low).outs) }
        ensures state { OnOk result (self.new ≡ moved self.old (move_to self.old.roster self.old.me self.old.local low).local) }
        ensures same { IsSame self.old self.new }
    {
        if low == 0 {
            return Ok(Local {
                answer: Answer::NotDue {
                    next: self.next_due(),
                },
                outs: Outs::new(self.alloc()),
            });
        }
        let proof = self.checkpoints.proof(low)?;
        let kept = self.leave(low, proof);
        let outs = self.hear_again(kept)?;
        Ok(Local {
            answer: Answer::Moved { low },
            outs,
        })
    }

    /// The next round for which a Checkpoint will be due.
    fn next_due(&self) -> u64
        ensures { result ≡ next_due self.now.roster.interval self.now.local.executed }
    {
        let interval = u64::from(self.members.interval());
        (self.pool.executed() / interval + 1) * interval
    }

    /// The low mark is now this round: slots, votes, prepared certificates and Checkpoints up to it are let go. Gives the messages that were
    /// kept as ahead or far. Takes no memory.
    fn leave(&mut self, low: u64, proof: Option<StableVotes>) -> Rows<Message>
        requires above { self.old.local.slots.low ≤ low }
        requires upto { low ≤ GREATEST_NUMBER }
        requires proof { proof ≡ proof_of self.old.local.checkpoints low }
        ensures kept { result ≡ self.old.local.kept }
        ensures state { self.new ≡ moved self.old (after_move self.old.local low) }
    {
        let alloc = self.alloc();
        leave_places(&mut self.prepared, low - self.slots.low());
        self.slots.move_low(low);
        self.next = self.next.max(low + 1);
        self.checkpoints.prune(low);
        let proof = proof.unwrap_or(StableVotes::new(alloc));
        drop(std::mem::replace(&mut self.proof, proof));
        std::mem::replace(&mut self.kept, Rows::new(alloc))
    }

    /// Hears these messages, one after another. Their answers aren't told.
    fn hear_again(&mut self, messages: Rows<Message>) -> Result<Outs, NoMemory>
        requires shaped { (m : Message) → In m messages → IsShaped self.old.roster m }
        requires whole { IsLocalState self.old.roster self.old.me self.old.local }
        ensures outs { IfOk result (λ outs. (answer : Answer)
            → outs ≡ (heard_again self.old.roster self.old.me (unmoved self.old.local answer) messages).outs) }
        ensures state { OnOk result ((answer : Answer)
            → self.new ≡ moved self.old (heard_again self.old.roster self.old.me (unmoved self.old.local answer) messages).local) }
        ensures same { IsSame self.old self.new }
    {
        // For the proof: the replica is a member of its cluster.
        let _ = &self.me;
        let mut outs = Outs::new(self.alloc());
        for message in messages.into_vec() {
            self.hear_one(message, &mut outs)?;
        }
        Ok(outs)
    }

    /// Hears a message, and adds what it brings about.
    fn hear_one(&mut self, message: Message, outs: &mut Outs) -> Result<(), NoMemory>
        requires { IsShaped self.old.roster message }
        ensures outs { OnOk result (outs.new ≡ outs.old ++ (hear self.old.roster self.old.me self.old.local message).outs) }
        ensures state { OnOk result (self.new ≡ moved self.old (hear self.old.roster self.old.me self.old.local message).local) }
        ensures same { IsSame self.old self.new }
    {
        let mut told = self.hear(message)?;
        let added = outs.append(&mut told.outs);
        drop(told);
        added
    }
}

/// Empties the first places.
fn empty_first(places: &mut [Option<PreparedCert>], count: usize)
    requires { count ≤ length places.old }
    ensures { places.new ≡ replicate count None ++ drop count places.old }
{
    for place in places[..count].iter_mut() {
        drop(place.take());
    }
}

/// Empties the first so many places, and puts them last.
pub(crate) fn leave_places(places: &mut Vec<Option<PreparedCert>>, count: u64)
    ensures { places.new.items ≡ moved_places count places.old.items }
{
    let count = count.min(places.len() as u64) as usize;
    empty_first(places, count);
    places.rotate_left(count);
}
