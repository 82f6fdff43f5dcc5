//! One message of each kind, each list in it with something in it.

use fab_base::{
    Ask, Batch, Bytes, ClientId, CommitCert, Hash32, Item, Message, NewView, NoMemory, Note,
    NoteLine, Op, Outcome, Plea, PrePrepare, PreparedCert, ReplicaId, Reply, Request, Rows,
    StableVote, ViewChange, Vote, Votes,
};
use std::alloc::Global;

/// The kinds of message.
#[derive(Clone, Copy)]
pub(crate) enum Kind {
    Request,
    PrePrepare,
    Prepare,
    Commit,
    Checkpoint,
    ViewChange,
    NewView,
    Drvc,
    Rvc,
    ReplyNote,
    Share,
    Fetch,
}

/// The kind that a word names.
pub(crate) fn kind_of(word: &str) -> Option<Kind> {
    match word {
        "request" => Some(Kind::Request),
        "pre_prepare" => Some(Kind::PrePrepare),
        "prepare" => Some(Kind::Prepare),
        "commit" => Some(Kind::Commit),
        "checkpoint" => Some(Kind::Checkpoint),
        _ => later_kind_of(word),
    }
}

/// The same of the other kinds.
fn later_kind_of(word: &str) -> Option<Kind> {
    match word {
        "view_change" => Some(Kind::ViewChange),
        "new_view" => Some(Kind::NewView),
        "drvc" => Some(Kind::Drvc),
        "rvc" => Some(Kind::Rvc),
        "reply_note" => Some(Kind::ReplyNote),
        "share" => Some(Kind::Share),
        "fetch" => Some(Kind::Fetch),
        _ => None,
    }
}

/// The message of a kind.
pub(crate) fn message(alloc: Global, kind: Kind) -> Result<Message, NoMemory> {
    match kind {
        Kind::Request => request_message(alloc),
        Kind::PrePrepare => pre_prepare(alloc),
        Kind::Prepare => prepare(alloc),
        Kind::Commit => commit(alloc),
        Kind::Checkpoint => checkpoint(alloc),
        Kind::ViewChange => view_change(alloc),
        Kind::NewView => new_view(alloc),
        Kind::Drvc => drvc(alloc),
        Kind::Rvc => rvc(alloc),
        Kind::ReplyNote => reply_note(alloc),
        Kind::Share => share(alloc),
        Kind::Fetch => Ok(Message::Fetch(ask())),
    }
}

/// A replica of cluster 1.
fn replica(index: u8) -> ReplicaId {
    ReplicaId { cluster: 1, index }
}

/// Some bytes: a key, a value or a signature.
fn some_bytes(alloc: Global) -> Result<Bytes, NoMemory> {
    Ok(Bytes::from_vec(vec![in alloc; 1, 2, 3]?))
}

/// A list of one item.
fn one<T: Drop>(alloc: Global, item: T) -> Result<Rows<T>, NoMemory> {
    let mut rows = Rows::new(alloc);
    rows.push(item)?;
    Ok(rows)
}

fn put(alloc: Global) -> Result<Op, NoMemory> {
    let key = some_bytes(alloc)?;
    let value = some_bytes(alloc)?;
    Ok(Op::Put { key, value })
}

fn get(alloc: Global) -> Result<Op, NoMemory> {
    let key = some_bytes(alloc)?;
    Ok(Op::Get { key })
}

fn cut(alloc: Global) -> Result<Op, NoMemory> {
    let key = some_bytes(alloc)?;
    Ok(Op::Cut { key })
}

fn swap(alloc: Global) -> Result<Op, NoMemory> {
    let key = some_bytes(alloc)?;
    let expected = some_bytes(alloc)?;
    let fresh = some_bytes(alloc)?;
    Ok(Op::Swap {
        key,
        expected,
        fresh,
    })
}

/// A request for an operation.
fn request(alloc: Global, op: Op) -> Result<Request, NoMemory> {
    let sig = some_bytes(alloc)?;
    Ok(Request {
        client: ClientId { number: 3 },
        stamp: 7,
        op,
        sig,
    })
}

/// One request more, for an operation.
fn push(alloc: Global, batch: &mut Batch, op: Op) -> Result<(), NoMemory> {
    batch.push(request(alloc, op)?)?;
    Ok(())
}

/// A request for each operation.
fn batch(alloc: Global) -> Result<Batch, NoMemory> {
    let mut batch = Batch::new(alloc);
    push(alloc, &mut batch, put(alloc)?)?;
    push(alloc, &mut batch, get(alloc)?)?;
    push(alloc, &mut batch, cut(alloc)?)?;
    push(alloc, &mut batch, swap(alloc)?)?;
    Ok(batch)
}

fn vote(alloc: Global, index: u8) -> Result<Vote, NoMemory> {
    let sig = some_bytes(alloc)?;
    Ok(Vote {
        signer: replica(index),
        view: 2,
        slot: 5,
        digest: Hash32 { bytes: [9; 32] },
        sig,
    })
}

/// The votes of two members.
fn votes(alloc: Global) -> Result<Votes, NoMemory> {
    let mut votes = one(alloc, vote(alloc, 0)?)?;
    votes.push(vote(alloc, 2)?)?;
    Ok(votes)
}

fn stable_vote(alloc: Global) -> Result<StableVote, NoMemory> {
    let sig = some_bytes(alloc)?;
    Ok(StableVote {
        signer: replica(0),
        round: 4,
        digest: Hash32 { bytes: [4; 32] },
        sig,
    })
}

fn prepared(alloc: Global) -> Result<PreparedCert, NoMemory> {
    let batch = batch(alloc)?;
    let votes = votes(alloc)?;
    Ok(PreparedCert {
        view: 2,
        slot: 5,
        batch,
        votes,
    })
}

fn change(alloc: Global) -> Result<ViewChange, NoMemory> {
    let proof = one(alloc, stable_vote(alloc)?)?;
    let prepared = one(alloc, prepared(alloc)?)?;
    let sig = some_bytes(alloc)?;
    Ok(ViewChange {
        signer: replica(3),
        view: 3,
        low: 4,
        proof,
        prepared,
        sig,
    })
}

fn plea(alloc: Global) -> Result<Plea, NoMemory> {
    let sig = some_bytes(alloc)?;
    Ok(Plea {
        signer: replica(1),
        target: 2,
        round: 6,
        count: 1,
        sig,
    })
}

fn certificate(alloc: Global) -> Result<CommitCert, NoMemory> {
    let batch = batch(alloc)?;
    let votes = votes(alloc)?;
    Ok(CommitCert {
        cluster: 1,
        batch,
        votes,
    })
}

/// A line of a note.
fn line(outcome: Outcome) -> NoteLine {
    NoteLine {
        client: ClientId { number: 3 },
        stamp: 7,
        outcome,
    }
}

fn found(alloc: Global) -> Result<Outcome, NoMemory> {
    let value = some_bytes(alloc)?;
    Ok(Outcome::Done(Reply::Found(value)))
}

fn note(alloc: Global) -> Result<Note, NoMemory> {
    let mut lines = one(alloc, line(found(alloc)?))?;
    lines.push(line(Outcome::Done(Reply::Wrote)))?;
    lines.push(line(Outcome::Again))?;
    let sig = some_bytes(alloc)?;
    Ok(Note {
        signer: replica(0),
        round: 5,
        digest: Hash32 { bytes: [9; 32] },
        lines,
        sig,
    })
}

fn ask() -> Ask {
    Ask {
        asker: replica(0),
        cluster: 2,
        round: 5,
    }
}

fn request_message(alloc: Global) -> Result<Message, NoMemory> {
    let op = swap(alloc)?;
    Ok(Message::Request(request(alloc, op)?))
}

fn pre_prepare(alloc: Global) -> Result<Message, NoMemory> {
    let batch = batch(alloc)?;
    let sig = some_bytes(alloc)?;
    Ok(Message::PrePrepare(PrePrepare {
        signer: replica(2),
        view: 2,
        slot: 5,
        batch,
        sig,
    }))
}

fn prepare(alloc: Global) -> Result<Message, NoMemory> {
    Ok(Message::Prepare(vote(alloc, 1)?))
}

fn commit(alloc: Global) -> Result<Message, NoMemory> {
    Ok(Message::Commit(vote(alloc, 1)?))
}

fn checkpoint(alloc: Global) -> Result<Message, NoMemory> {
    Ok(Message::Checkpoint(stable_vote(alloc)?))
}

fn view_change(alloc: Global) -> Result<Message, NoMemory> {
    Ok(Message::ViewChange(change(alloc)?))
}

fn new_view(alloc: Global) -> Result<Message, NoMemory> {
    let changes = one(alloc, change(alloc)?)?;
    let sig = some_bytes(alloc)?;
    Ok(Message::NewView(NewView {
        signer: replica(3),
        view: 3,
        changes,
        sig,
    }))
}

fn drvc(alloc: Global) -> Result<Message, NoMemory> {
    Ok(Message::Drvc(plea(alloc)?))
}

fn rvc(alloc: Global) -> Result<Message, NoMemory> {
    Ok(Message::Rvc(plea(alloc)?))
}

fn reply_note(alloc: Global) -> Result<Message, NoMemory> {
    Ok(Message::ReplyNote(note(alloc)?))
}

fn share(alloc: Global) -> Result<Message, NoMemory> {
    Ok(Message::Share(certificate(alloc)?))
}

/// A share on its way to a replica.
pub(crate) fn item(alloc: Global) -> Result<Item, NoMemory> {
    let message = share(alloc)?;
    let to = one(alloc, replica(0))?;
    Ok(Item { message, to })
}
