//! The cases, one after another.
use crate::answers::{answer_words, item_words, signers_words};
use crate::declared::Declared;
use crate::fabric::Fabric;
use crate::looking;
use crate::messages::message;
use crate::node::{Node, Seat, Turn};
use crate::rounds::Alone;
use crate::words::{Text, Unanswered, at, plain, replica, shown};
use fab_base::{NoMemory, ReplicaId};
use replica_core::{Answer, Mover};
use std::alloc::Global;

/// What the cases so far have declared and begun.
#[derive(Drop)]
pub(crate) struct Desk {
    alloc: Global,
    declared: Declared,
    fabric: Option<Fabric>,
    alone: Alone,
}

impl Desk {
    /// Nothing is declared or begun.
    pub(crate) fn new(alloc: Global) -> Result<Desk, NoMemory> {
        let alone = Alone::new(alloc, 0, 0)?;
        Ok(Desk {
            alloc,
            declared: Declared::new(alloc),
            fabric: None,
            alone,
        })
    }

    /// The answer to a case. It fails only where memory is refused.
    pub(crate) fn answer(&mut self, line: &str) -> Result<String, NoMemory> {
        match self.case(line) {
            Ok(answer) => Ok(answer),
            Err(Unanswered::Unreadable) => String::from_str(self.alloc, "unreadable"),
            Err(Unanswered::Misshapen(misfit)) => Ok(format!(in self.alloc; "{misfit:?}")?),
            Err(Unanswered::NoMemory) => Err(NoMemory),
        }
    }

    /// What is declared or begun, what rounds alone answer, and what rounds came to.
    fn case(&mut self, line: &str) -> Text {
        match at(line, 0) {
            "fabric" => self.begin(line),
            "request" => self.declared.declare(line),
            "rounds" => self.alone.begin(line),
            "keep" => self.alone.keep(&self.declared, line),
            "run" => self.alone.run(),
            "ledger" | "chain" | "after" | "missing" | "outcomes" => self.look(line),
            _ => self.ask(line),
        }
    }

    fn begin(&mut self, line: &str) -> Text {
        let fabric = Fabric::read(self.alloc, line)?;
        let replicas = fabric.len();
        self.fabric = Some(fabric);
        Ok(format!(in self.alloc; "{replicas} replicas")?)
    }

    /// What rounds came to.
    fn look(&self, line: &str) -> Text {
        let id = at(line, 1);
        if id == "alone" {
            return looking::answer(self.alloc, self.alone.rounds(), line);
        }
        match &self.fabric {
            Some(fabric) => {
                let node = fabric.node(replica(id)?)?;
                looking::answer(self.alloc, node.seat.rounds(), line)
            }
            None => Err(Unanswered::Unreadable),
        }
    }

    /// What all replicas answer, or one.
    fn ask(&mut self, line: &str) -> Text {
        let Some(fabric) = &mut self.fabric else {
            return Err(Unanswered::Unreadable);
        };
        match at(line, 0) {
            "send" => {
                let copies = fabric.send(self.declared.request(at(line, 1))?)?;
                Ok(format!(in self.alloc; "to {copies}")?)
            }
            "settle" => match at(line, 1) {
                "first" => fabric.settle(Turn::Oldest),
                "last" => fabric.settle(Turn::Newest),
                _ => Err(Unanswered::Unreadable),
            },
            _ => of_replica(self.alloc, fabric, &self.declared, line),
        }
    }
}

/// What one replica answers.
fn of_replica(alloc: Global, fabric: &mut Fabric, declared: &Declared, line: &str) -> Text {
    let id = replica(at(line, 1))?;
    match at(line, 0) {
        "hear" => hear(alloc, fabric, declared, id, line),
        "next" => mail(alloc, fabric, id, Turn::Oldest),
        "last" => mail(alloc, fabric, id, Turn::Newest),
        "batch" => act(alloc, fabric, id, Mover::Batch),
        "nudge" => act(alloc, fabric, id, Mover::Nudge),
        "emit" => act(alloc, fabric, id, Mover::Emit),
        "execute" => act(alloc, fabric, id, Mover::Execute),
        "checkpoint" => act(alloc, fabric, id, Mover::Checkpoint),
        "timeout" => act(alloc, fabric, id, Mover::Timeout),
        word => asked(alloc, fabric.node(id)?, word),
    }
}

/// Hears the message that the line tells of.
fn hear(
    alloc: Global,
    fabric: &mut Fabric,
    declared: &Declared,
    id: ReplicaId,
    line: &str,
) -> Text {
    let message = message(alloc, fabric, declared, line)?;
    answer_words(alloc, &fabric.feed(id, message)?)
}

/// Hears one of its mail.
fn mail(alloc: Global, fabric: &mut Fabric, id: ReplicaId, turn: Turn) -> Text {
    match fabric.hear(id, turn)? {
        Some(answer) => answer_words(alloc, &answer),
        None => plain(alloc, "None"),
    }
}

/// An event of its own. What is sent is delivered.
fn act(alloc: Global, fabric: &mut Fabric, id: ReplicaId, mover: Mover) -> Text {
    let answer = fabric.node_mut(id)?.seat.act(mover)?;
    delivered(alloc, fabric, &answer)
}

/// An answer as words. What it sends is delivered first.
fn delivered(alloc: Global, fabric: &mut Fabric, answer: &Answer) -> Text {
    fabric.deliver(answer)?;
    answer_words(alloc, answer)
}

/// What it is asked: what waits at it, what would move it, and what its low mark is.
fn asked(alloc: Global, node: &Node, word: &str) -> Text {
    match word {
        "first" => match node.seat.first() {
            Some(item) => item_words(alloc, item),
            None => plain(alloc, "None"),
        },
        "draft" => match node.seat.draft()? {
            Some(length) => Ok(format!(in alloc; "{length} bytes")?),
            None => plain(alloc, "None"),
        },
        "moves" => moves(alloc, &node.seat),
        "low" => shown(alloc, &node.seat.low()),
        "proof" => signers_words(alloc, node.seat.low_proof()),
        _ => Err(Unanswered::Unreadable),
    }
}

/// Which events would make an entry.
fn moves(alloc: Global, seat: &Seat) -> Text {
    let (batch, nudge) = (seat.would(Mover::Batch), seat.would(Mover::Nudge));
    let (emit, execute) = (seat.would(Mover::Emit), seat.would(Mover::Execute));
    let (checkpoint, timeout) = (seat.would(Mover::Checkpoint), seat.would(Mover::Timeout));
    Ok(format!(in alloc;
        "batch {batch}, nudge {nudge}, emit {emit}, execute {execute}, checkpoint {checkpoint}, timeout {timeout}"
    )?)
}
