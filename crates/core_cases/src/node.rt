//! One replica with its mail.
ghost use Rattle.std.specs.Prelude.{◌≡◌, IfOk, IsTrue};
ghost use Rattle.fab_base.specs.Roster.{is_replica};
ghost use Rattle.fab_rules.specs.Format.{fits};

use crate::words::Unanswered;
use bft_msg::{Shaped, fits, shape};
use fab_base::{Bytes, Duplicate, Members, Message, NoMemory, ReplicaId, StableVotes};
use replica_core::{Answer, Core, Event, Item, Mover, core};
use round_exec::Rounds;
use std::alloc::Global;
use std::collections::VecDeque;

/// What moves a replica in a pass over all of them.
#[derive(Clone, Copy, Drop)]
pub(crate) enum Turn {
    /// The oldest of its mail, or else what moves by itself.
    Oldest,
    /// The newest of its mail, or else what moves by itself.
    Newest,
    /// A nudge.
    Nudge,
}

/// A replica, and its mail.
#[derive(Drop)]
pub(crate) struct Node {
    pub(crate) id: ReplicaId,
    pub(crate) seat: Seat,
    /// The numbers of the letters that came and weren't heard.
    pub(crate) mail: VecDeque<usize>,
}

/// A replica with a handle to its members.
#[derive(Drop)]
pub(crate) struct Seat {
    alloc: Global,
    members: Members,
    core: Core,
    ghost its_members: { core.roster ≡ members },
}

impl Seat {
    /// A replica of the members that has heard nothing.
    pub(crate) fn new(alloc: Global, members: &Members, id: ReplicaId) -> Result<Seat, NoMemory>
        requires { IsTrue (is_replica members.now id) }
    {
        let (kept, given) = (members.share()?, members.share()?);
        Ok(Seat {
            alloc,
            members: kept,
            core: core(alloc, given, id)?,
        })
    }

    /// Hears a message, if it is well formed.
    pub(crate) fn hear(&mut self, message: Message) -> Result<Answer, Unanswered> {
        let shaped = shaped(&self.members, message)?;
        Ok(self.core.step(Event::Hear(shaped))?)
    }

    /// The event.
    pub(crate) fn act(&mut self, mover: Mover) -> Result<Answer, Unanswered> {
        let event = match mover {
            Mover::Batch => Event::Batch,
            Mover::Nudge => Event::Nudge,
            Mover::Emit => Event::Emit {
                sig: Bytes::new(self.alloc),
            },
            Mover::Execute => Event::Execute,
            Mover::Checkpoint => Event::Checkpoint,
            Mover::Timeout => Event::Timeout,
        };
        Ok(self.core.step(event)?)
    }

    /// The first of these events that would make an entry, if there is one.
    fn act_first(&mut self, movers: &[Mover]) -> Result<Option<Answer>, Unanswered> {
        for mover in movers {
            if self.would(*mover) {
                return Ok(Some(self.act(*mover)?));
            }
        }
        Ok(None)
    }

    /// Whether the event would make an entry.
    pub(crate) fn would(&self, mover: Mover) -> bool {
        self.core.moves(mover)
    }

    /// The first item that waits.
    pub(crate) fn first(&self) -> Option<&Item> {
        self.core.first()
    }

    /// How many bytes of it are to be signed.
    pub(crate) fn draft(&self) -> Result<Option<usize>, NoMemory> {
        match self.core.draft()? {
            Some(content) => Ok(Some(content.len())),
            None => Ok(None),
        }
    }

    /// Its low mark.
    pub(crate) fn low(&self) -> u64 {
        self.core.low()
    }

    /// The Checkpoints that prove its low mark.
    pub(crate) fn low_proof(&self) -> &StableVotes {
        self.core.low_proof()
    }

    /// What it keeps of the rounds.
    pub(crate) fn rounds(&self) -> &Rounds {
        self.core.rounds()
    }
}

/// The oldest or the newest of a replica's mail, which is taken out.
pub(crate) fn take(mail: &mut VecDeque<usize>, turn: Turn) -> Option<usize> {
    match turn {
        Turn::Oldest => mail.pop_front(),
        Turn::Newest => mail.pop_back(),
        Turn::Nudge => None,
    }
}

/// A copy of the letter of this number.
pub(crate) fn letter(letters: &[Message], number: usize) -> Result<Message, Unanswered> {
    match letters.get(number) {
        Some(message) => Ok(message.duplicate()?),
        None => Err(Unanswered::Unreadable),
    }
}

impl Node {
    /// One event of this turn, if there is one.
    pub(crate) fn turn(
        &mut self,
        letters: &[Message],
        turn: Turn,
    ) -> Result<Option<Answer>, Unanswered> {
        if let Some(number) = take(&mut self.mail, turn) {
            return Ok(Some(self.seat.hear(letter(letters, number)?)?));
        }
        match turn {
            Turn::Nudge => self.seat.act_first(&[Mover::Nudge]),
            Turn::Oldest | Turn::Newest => self.seat.act_first(&[
                Mover::Batch,
                Mover::Emit,
                Mover::Execute,
                Mover::Checkpoint,
            ]),
        }
    }
}

/// The message, where it has a spelling and is well formed for the members.
fn shaped(members: &Members, message: Message) -> Result<Shaped, Unanswered>
    ensures { IfOk result (λ shaped. shaped.members ≡ members.now) }
{
    if fits(&message) {
        well_formed(members.share()?, message)
    } else {
        Err(Unanswered::Unreadable)
    }
}

/// A message that has a spelling, where it is well formed for the members.
fn well_formed(members: Members, message: Message) -> Result<Shaped, Unanswered>
    requires { IsTrue (fits message) }
    ensures { IfOk result (λ shaped. shaped.members ≡ members) }
{
    match shape(members, message) {
        Ok(shaped) => Ok(shaped),
        Err((misfit, _)) => Err(Unanswered::Misshapen(misfit)),
    }
}
