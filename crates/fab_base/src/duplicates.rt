//! Exact copies of everything that a message is made of, and of what is sent and answered.
use crate::NoMemory;
use crate::answers::{Item, Take};
use crate::ids::{ClientId, Hash32, ReplicaId, Who};
use crate::messages::{
    Ask, CommitCert, Message, NewView, Note, NoteLine, Plea, PrePrepare, PreparedCert, StableVote,
    ViewChange, Vote,
};
use crate::requests::{Op, Outcome, Reply, Request};
use fab_rows::Duplicate;

impl Duplicate for ReplicaId {
    fn duplicate(&self) -> Result<ReplicaId, NoMemory> {
        Ok(*self)
    }
}

impl Duplicate for ClientId {
    fn duplicate(&self) -> Result<ClientId, NoMemory> {
        Ok(*self)
    }
}

impl Duplicate for Who {
    fn duplicate(&self) -> Result<Who, NoMemory> {
        Ok(*self)
    }
}

impl Duplicate for Hash32 {
    fn duplicate(&self) -> Result<Hash32, NoMemory> {
        Ok(*self)
    }
}

impl Duplicate for Ask {
    fn duplicate(&self) -> Result<Ask, NoMemory> {
        Ok(*self)
    }
}

impl Duplicate for Take {
    fn duplicate(&self) -> Result<Take, NoMemory> {
        Ok(*self)
    }
}

impl Duplicate for Op {
    fn duplicate(&self) -> Result<Op, NoMemory> {
        Ok(match self {
            Op::Put { key, value } => Op::Put {
                key: key.copy()?,
                value: value.copy()?,
            },
            Op::Get { key } => Op::Get { key: key.copy()? },
            Op::Cut { key } => Op::Cut { key: key.copy()? },
            Op::Swap {
                key,
                expected,
                fresh,
            } => Op::Swap {
                key: key.copy()?,
                expected: expected.copy()?,
                fresh: fresh.copy()?,
            },
        })
    }
}

impl Duplicate for Reply {
    fn duplicate(&self) -> Result<Reply, NoMemory> {
        Ok(match self {
            Reply::Wrote => Reply::Wrote,
            Reply::Found(value) => Reply::Found(value.copy()?),
            Reply::Absent => Reply::Absent,
        })
    }
}

impl Duplicate for Outcome {
    fn duplicate(&self) -> Result<Outcome, NoMemory> {
        Ok(match self {
            Outcome::Done(reply) => Outcome::Done(reply.duplicate()?),
            Outcome::Again => Outcome::Again,
            Outcome::Early => Outcome::Early,
        })
    }
}

impl Duplicate for Request {
    fn duplicate(&self) -> Result<Request, NoMemory> {
        Ok(Request {
            client: self.client,
            stamp: self.stamp,
            op: self.op.duplicate()?,
            sig: self.sig.copy()?,
        })
    }
}

impl Duplicate for PrePrepare {
    fn duplicate(&self) -> Result<PrePrepare, NoMemory> {
        Ok(PrePrepare {
            signer: self.signer,
            view: self.view,
            slot: self.slot,
            batch: self.batch.copy()?,
            sig: self.sig.copy()?,
        })
    }
}

impl Duplicate for Vote {
    fn duplicate(&self) -> Result<Vote, NoMemory> {
        Ok(Vote {
            signer: self.signer,
            view: self.view,
            slot: self.slot,
            digest: self.digest,
            sig: self.sig.copy()?,
        })
    }
}

impl Duplicate for StableVote {
    fn duplicate(&self) -> Result<StableVote, NoMemory> {
        Ok(StableVote {
            signer: self.signer,
            round: self.round,
            digest: self.digest,
            sig: self.sig.copy()?,
        })
    }
}

impl Duplicate for PreparedCert {
    fn duplicate(&self) -> Result<PreparedCert, NoMemory> {
        Ok(PreparedCert {
            view: self.view,
            slot: self.slot,
            batch: self.batch.copy()?,
            votes: self.votes.copy()?,
        })
    }
}

impl Duplicate for CommitCert {
    fn duplicate(&self) -> Result<CommitCert, NoMemory> {
        Ok(CommitCert {
            cluster: self.cluster,
            batch: self.batch.copy()?,
            votes: self.votes.copy()?,
        })
    }
}

impl Duplicate for ViewChange {
    fn duplicate(&self) -> Result<ViewChange, NoMemory> {
        Ok(ViewChange {
            signer: self.signer,
            view: self.view,
            low: self.low,
            proof: self.proof.copy()?,
            prepared: self.prepared.copy()?,
            sig: self.sig.copy()?,
        })
    }
}

impl Duplicate for NewView {
    fn duplicate(&self) -> Result<NewView, NoMemory> {
        Ok(NewView {
            signer: self.signer,
            view: self.view,
            changes: self.changes.copy()?,
            sig: self.sig.copy()?,
        })
    }
}

impl Duplicate for Plea {
    fn duplicate(&self) -> Result<Plea, NoMemory> {
        Ok(Plea {
            signer: self.signer,
            target: self.target,
            round: self.round,
            count: self.count,
            sig: self.sig.copy()?,
        })
    }
}

impl Duplicate for NoteLine {
    fn duplicate(&self) -> Result<NoteLine, NoMemory> {
        Ok(NoteLine {
            client: self.client,
            stamp: self.stamp,
            outcome: self.outcome.duplicate()?,
        })
    }
}

impl Duplicate for Note {
    fn duplicate(&self) -> Result<Note, NoMemory> {
        Ok(Note {
            signer: self.signer,
            round: self.round,
            digest: self.digest,
            lines: self.lines.copy()?,
            sig: self.sig.copy()?,
        })
    }
}

impl Duplicate for Message {
    fn duplicate(&self) -> Result<Message, NoMemory> {
        Ok(match self {
            Message::Request(message) => Message::Request(message.duplicate()?),
            Message::PrePrepare(message) => Message::PrePrepare(message.duplicate()?),
            Message::Prepare(message) => Message::Prepare(message.duplicate()?),
            Message::Commit(message) => Message::Commit(message.duplicate()?),
            Message::Checkpoint(message) => Message::Checkpoint(message.duplicate()?),
            Message::ViewChange(message) => Message::ViewChange(message.duplicate()?),
            Message::NewView(message) => Message::NewView(message.duplicate()?),
            Message::Drvc(message) => Message::Drvc(message.duplicate()?),
            Message::Rvc(message) => Message::Rvc(message.duplicate()?),
            Message::ReplyNote(message) => Message::ReplyNote(message.duplicate()?),
            Message::Share(message) => Message::Share(message.duplicate()?),
            Message::Fetch(ask) => Message::Fetch(*ask),
        })
    }
}

impl Duplicate for Item {
    fn duplicate(&self) -> Result<Item, NoMemory> {
        Ok(Item {
            message: self.message.duplicate()?,
            to: self.to.copy()?,
        })
    }
}
