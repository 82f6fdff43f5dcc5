//! The ordering in a cluster of one.
ghost use Rattle.std.specs.Prelude.{◌≡◌, false, true};
ghost use Rattle.fab_rules.specs.Format.{digest_fits};

use crate::batches::{are_clients, outcomes, request};
use bft_msg::{fits, shape};
use fab_base::{
    Answer, Batch, GREATEST_NUMBER, Hash32, Members, Message, NoMemory, ReplicaId, members,
};
use fab_machine::{Out, Outs};
use local_order::{Local, Order, order};
use std::alloc::Global;
use std::collections::VecDeque;
use std::marker::Model;

/// How many slots are open at once.
const WINDOW: u8 = 16;

/// Each so many rounds there is a Checkpoint.
const INTERVAL: u8 = 8;

/// After so many events of a kind a batch isn't waited for any more.
const MOST_EVENTS: u32 = 16;

/// The ordering in the cluster of the one replica of a fabric, which has one client.
#[derive(Drop)]
pub(crate) struct Alone {
    alloc: Global,
    members: Members,
    me: ReplicaId,
    order: Order,
    /// How many rounds it was told of.
    rounds: u64,
    /// What it put and hasn't heard, the first that was put first.
    put: VecDeque<Message>,
}

impl Model for Alone {
    ghost use Rattle.order_heap.specs.Alone.{Standing, IsStanding};

    ghost Value = { Standing };

    ghost view = { λ a. record { roster = a.members; me = a.me; rounds = a.rounds; order = a.order } };

    ghost invariant = { λ a. IsStanding (record { roster = a.members; me = a.me; rounds = a.rounds; order = a.order }) };
}

impl Alone {
    /// Nothing was heard.
    pub(crate) fn new(alloc: Global) -> Result<Alone, NoMemory> {
        let members = members(alloc, &[1], &[1], WINDOW, INTERVAL, 1)?;
        let me = ReplicaId {
            cluster: 1,
            index: 0,
        };
        let order = order(alloc, members.share()?, me)?;
        Ok(Alone {
            alloc,
            members,
            me,
            order,
            rounds: 0,
            put: VecDeque::new(alloc),
        })
    }

    /// How many rounds were executed.
    pub(crate) fn rounds(&self) -> u64 {
        self.rounds
    }

    /// The low mark.
    pub(crate) fn low(&self) -> u64 {
        self.order.low()
    }

    /// The request of this stamp is ordered and executed, and then Checkpoints are said and the low mark moves until nothing is due.
    pub(crate) fn batch(&mut self, stamp: u32) -> Result<(), NoMemory> {
        self.hear(Message::Request(request(self.alloc, stamp)?))?;
        self.propose()?;
        for _ in 0..MOST_EVENTS {
            if !self.checkpoint()? {
                break;
            }
        }
        Ok(())
    }

    /// Proposes what waits, and hears what comes of it.
    fn propose(&mut self) -> Result<(), NoMemory> {
        let told = self.order.propose(true, false)?;
        self.take(told.outs)?;
        self.hear_put()
    }

    /// Says a Checkpoint and hears it, or moves the low mark. Answers whether one of the two was due.
    fn checkpoint(&mut self) -> Result<bool, NoMemory> {
        let Local { answer, outs } = self.order.checkpoint()?;
        self.take(outs)?;
        self.hear_put()?;
        Ok(!matches!(answer, Answer::NotDue { .. }))
    }

    /// Hears what it put, and what it puts then.
    fn hear_put(&mut self) -> Result<(), NoMemory> {
        for _ in 0..MOST_EVENTS {
            match self.put.pop_front() {
                Some(message) => self.hear(message)?,
                None => break,
            }
        }
        Ok(())
    }

    /// Hears a message, where it is well formed.
    fn hear(&mut self, message: Message) -> Result<(), NoMemory> {
        if !fits(&message) {
            return Ok(());
        }
        match shape(self.members.share()?, message) {
            Ok(shaped) => {
                let told = self.order.hear(shaped.into_message())?;
                self.take(told.outs)
            }
            Err(_) => Ok(()),
        }
    }

    /// Takes over what a call brought about: messages are to be heard, and a batch that was committed is executed.
    fn take(&mut self, outs: Outs) -> Result<(), NoMemory>
        requires { self.old.order.shut ≡ false }
    {
        let Some(batch) = sort(&mut self.put, outs)? else {
            return Ok(());
        };
        if self.rounds < GREATEST_NUMBER && are_clients(&self.members, batch.as_slice()) {
            let round = self.rounds + 1;
            let outcomes = outcomes(self.alloc, batch.len())?;
            self.order.served(round, &batch, &outcomes, digest())?;
            self.rounds = round;
        }
        Ok(())
    }
}

/// Adds the messages of what was brought about to those that were put, and gives the batch of its last certificate, if it has one. No call here
/// leaves the view or enters one.
fn sort(put: &mut VecDeque<Message>, outs: Outs) -> Result<Option<Batch>, NoMemory> {
    let mut committed = None;
    for out in outs.into_vec() {
        match out {
            Out::Put(item) => put.push_back(item.message)?,
            Out::Certified(cert) => committed = Some(cert.batch),
            Out::Clear | Out::Entered(_) => {}
        }
    }
    Ok(committed)
}

/// What a Checkpoint bears, of whatever round: zeros, since nobody looks at it here.
fn digest() -> Hash32
    ensures { digest_fits result ≡ true }
{
    Hash32 { bytes: [0; 32] }
}
