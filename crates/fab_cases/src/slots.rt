//! Questions to the slots of a view. Digests and what is kept of a vote are numbers; a batch is one request, known by its stamp.

use crate::words::{Answer, Unanswered, at, number, plain, shown, small};
use fab_base::{Batch, Bytes, ClientId, Hash32, MOST_MEMBERS, NoMemory, Op, Request, Take};
use pbft_slots::Slots;
use std::alloc::Global;

/// `new MEMBERS WINDOW`, `pre_prepare SLOT DIGEST STAMP`, `prepare` and `commit SLOT DIGEST SENDER KEPT`, `move_low LOW`, and what only
/// looks.
pub(crate) fn answer(alloc: Global, slots: &mut Slots<u64>, line: &str) -> Answer {
    match at(line, 1) {
        "new" => begin(alloc, slots, line),
        "pre_prepare" => pre_prepare(alloc, slots, line),
        "prepare" => prepare(alloc, slots, line),
        "commit" => commit(alloc, slots, line),
        "move_low" => move_low(alloc, slots, line),
        _ => look(alloc, slots, line),
    }
}

/// `place`, `refusal`, `batch`, `prepared` and `committed SLOT`, and what is kept of votes.
fn look(alloc: Global, slots: &Slots<u64>, line: &str) -> Answer {
    let slot = number(line, 2)?;
    match at(line, 1) {
        "place" => place(alloc, slots, slot),
        "refusal" => refusal(alloc, slots, slot),
        "batch" => batch_at(alloc, slots, slot),
        "prepared" => digest(alloc, slots.prepared(slot)),
        "committed" => digest(alloc, slots.committed(slot)),
        _ => look_at_votes(alloc, slots, slot, line),
    }
}

/// `kept_prepare` and `kept_commit SLOT SENDER`, `first_prepares` and `first_commits SLOT`.
fn look_at_votes(alloc: Global, slots: &Slots<u64>, slot: u64, line: &str) -> Answer {
    match at(line, 1) {
        "kept_prepare" => shown(alloc, &slots.kept_prepare(slot, small(line, 3)?)),
        "kept_commit" => shown(alloc, &slots.kept_commit(slot, small(line, 3)?)),
        "first_prepares" => first_prepares(alloc, slots, slot),
        "first_commits" => first_commits(alloc, slots, slot),
        _ => Err(Unanswered::Unreadable),
    }
}

/// What came of a call, with the first byte of a digest in its place.
#[derive(Clone, Copy, Debug)]
enum Heard {
    Taken,
    Old(u64),
    Far(u64),
    Twice,
    Conflict(u8),
    Other,
}

/// The same of a `Take`.
fn came(take: Take) -> Heard {
    match take {
        Take::Taken => Heard::Taken,
        Take::Old { low } => Heard::Old(low),
        Take::Far { high } => Heard::Far(high),
        Take::Twice => Heard::Twice,
        Take::Conflict { kept } => Heard::Conflict(kept.bytes[0]),
        _ => Heard::Other,
    }
}

/// Begins again, with so many members and slots.
fn begin(alloc: Global, slots: &mut Slots<u64>, line: &str) -> Answer {
    let members = small(line, 2)?;
    let window = small(line, 3)?;
    if members == 0 || members > MOST_MEMBERS || window == 0 {
        return Err(Unanswered::Unreadable);
    }
    *slots = pbft_slots::slots(alloc, members, window)?;
    plain(alloc, "made")
}

/// A batch of one request.
fn batch(alloc: Global, stamp: u32) -> Result<Batch, NoMemory> {
    let mut batch = Batch::new(alloc);
    let key = Bytes::new(alloc);
    batch.push(Request {
        client: ClientId { number: 0 },
        stamp,
        op: Op::Get { key },
        sig: Bytes::new(alloc),
    })?;
    Ok(batch)
}

/// The digest whose bytes are all the number at a place.
fn hash(line: &str, place: usize) -> Result<Hash32, Unanswered> {
    Ok(Hash32 {
        bytes: [small(line, place)?; 32],
    })
}

/// Hears of a batch.
fn pre_prepare(alloc: Global, slots: &mut Slots<u64>, line: &str) -> Answer {
    let slot = number(line, 2)?;
    let hash = hash(line, 3)?;
    let stamp = small(line, 4)?;
    let take = slots.pre_prepare(slot, hash, batch(alloc, u32::from(stamp))?);
    shown(alloc, &came(take))
}

/// A vote for a slot.
#[derive(Clone, Copy)]
struct Voted {
    slot: u64,
    hash: Hash32,
    sender: u8,
    kept: u64,
}

/// The vote that the words give.
fn vote(line: &str) -> Result<Voted, Unanswered> {
    Ok(Voted {
        slot: number(line, 2)?,
        hash: hash(line, 3)?,
        sender: small(line, 4)?,
        kept: number(line, 5)?,
    })
}

/// Hears of a prepare of a member.
fn prepare(alloc: Global, slots: &mut Slots<u64>, line: &str) -> Answer {
    let vote = vote(line)?;
    if vote.sender >= slots.members() {
        return Err(Unanswered::Unreadable);
    }
    let take = slots.prepare(vote.sender, vote.slot, vote.hash, vote.kept);
    shown(alloc, &came(take))
}

/// Hears of a commit of a member.
fn commit(alloc: Global, slots: &mut Slots<u64>, line: &str) -> Answer {
    let vote = vote(line)?;
    if vote.sender >= slots.members() {
        return Err(Unanswered::Unreadable);
    }
    let take = slots.commit(vote.sender, vote.slot, vote.hash, vote.kept);
    shown(alloc, &came(take))
}

/// Moves the low mark up.
fn move_low(alloc: Global, slots: &mut Slots<u64>, line: &str) -> Answer {
    let low = number(line, 2)?;
    if low < slots.low() {
        return Err(Unanswered::Unreadable);
    }
    slots.move_low(low);
    shown(alloc, &slots.low())
}

/// The place of a slot, or why it isn't open.
fn place(alloc: Global, slots: &Slots<u64>, slot: u64) -> Answer {
    match slots.place_of(slot) {
        Ok(place) => shown(alloc, &place),
        Err(refused) => shown(alloc, &came(refused)),
    }
}

/// Why a slot isn't open.
fn refusal(alloc: Global, slots: &Slots<u64>, slot: u64) -> Answer {
    match slots.refusal(slot) {
        Some(refused) => shown(alloc, &came(refused)),
        None => plain(alloc, "None"),
    }
}

/// The stamp of the request of the batch of a slot.
fn batch_at(alloc: Global, slots: &Slots<u64>, slot: u64) -> Answer {
    match slots.batch(slot) {
        Some(batch) => stamp(alloc, batch.get(0)),
        None => plain(alloc, "None"),
    }
}

/// The stamp of a request.
fn stamp(alloc: Global, request: Option<&Request>) -> Answer {
    match request {
        Some(request) => shown(alloc, &request.stamp),
        None => plain(alloc, "empty"),
    }
}

/// The first byte of a digest.
fn digest(alloc: Global, digest: Option<Hash32>) -> Answer {
    match digest {
        Some(digest) => shown(alloc, &digest.bytes[0]),
        None => plain(alloc, "None"),
    }
}

/// The first prepares of a prepared slot.
fn first_prepares(alloc: Global, slots: &Slots<u64>, slot: u64) -> Answer {
    match slots.prepared(slot) {
        Some(hash) => shown(alloc, &slots.first_prepares(alloc, slot, hash)?.as_slice()),
        None => Err(Unanswered::Unreadable),
    }
}

/// The first commits of a committed slot.
fn first_commits(alloc: Global, slots: &Slots<u64>, slot: u64) -> Answer {
    match slots.committed(slot) {
        Some(hash) => shown(alloc, &slots.first_commits(alloc, slot, hash)?.as_slice()),
        None => Err(Unanswered::Unreadable),
    }
}
