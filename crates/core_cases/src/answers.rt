//! What a replica answers, as words.
use crate::words::{Text, joined, shown};
use fab_base::{CommitCert, Hash32, Item, Message, ReplicaId, StableVotes, Take};
use replica_core::Answer;
use std::alloc::Global;

/// An answer as Rust writes it, but for digests and items.
pub(crate) fn answer_words(alloc: Global, answer: &Answer) -> Text {
    match answer {
        Answer::Heard(Take::Conflict { kept }) => {
            let conflict = conflict_words(alloc, kept)?;
            Ok(format!(in alloc; "Heard({conflict})")?)
        }
        Answer::Sent(item) => {
            let item = item_words(alloc, item)?;
            Ok(format!(in alloc; "Sent {item}")?)
        }
        _ => shown(alloc, answer),
    }
}

/// What comes of a certificate that is to be kept.
pub(crate) fn take_words(alloc: Global, take: &Take) -> Text {
    match take {
        Take::Conflict { kept } => conflict_words(alloc, kept),
        _ => shown(alloc, take),
    }
}

/// A conflict with what has this digest.
fn conflict_words(alloc: Global, kept: &Hash32) -> Text {
    let digest = hex::encode(alloc, &kept.bytes[..4])?;
    Ok(format!(in alloc; "Conflict {{ kept: {digest} }}")?)
}

/// An item by its kind, its slot, round or view, and the number of its receivers.
pub(crate) fn item_words(alloc: Global, item: &Item) -> Text {
    let (kind, number) = match &item.message {
        Message::PrePrepare(x) => ("PrePrepare", x.slot),
        Message::Prepare(x) => ("Prepare", x.slot),
        Message::Commit(x) => ("Commit", x.slot),
        Message::Checkpoint(x) => ("Checkpoint", x.round),
        Message::ViewChange(x) => ("ViewChange", x.view),
        Message::NewView(x) => ("NewView", x.view),
        Message::Drvc(x) => ("Drvc", x.round),
        Message::Rvc(x) => ("Rvc", x.round),
        Message::Share(x) => ("Share", round(x)),
        Message::ReplyNote(x) => ("ReplyNote", x.round),
        _ => ("Other", 0),
    };
    let receivers = item.to.len();
    Ok(format!(in alloc; "{kind} {number} to {receivers}")?)
}

/// The round of a certificate.
fn round(cert: &CommitCert) -> u64 {
    match cert.votes.get(0) {
        Some(vote) => vote.slot,
        None => 0,
    }
}

/// The signers of a proof, in its order, or `none`.
pub(crate) fn signers_words(alloc: Global, proof: &StableVotes) -> Text {
    let mut words = Vec::new(alloc);
    for vote in proof.as_slice() {
        let ReplicaId { cluster, index } = vote.signer;
        words.push(format!(in alloc; "{cluster}.{index}")?)?;
    }
    joined(alloc, &words, " ")
}
