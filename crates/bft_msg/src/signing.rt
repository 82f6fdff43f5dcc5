//! Who signed a message, and its signature.
ghost use Rattle.std.specs.Prelude.{◌≡◌, [], MatchOption};
ghost use Rattle.std.specs.Option.{is_some};
ghost use Rattle.fab_rules.specs.Statements.{signer_of, signature_of, with_sig};

use fab_base::{
    Bytes, Message, NewView, Note, Plea, PrePrepare, Request, StableVote, ViewChange, Vote, Who,
};

/// Who signs a message. `None` comes exactly for the kinds that nobody signs: a Share and a Fetch. Takes no memory.
pub fn signer(message: &Message) -> Option<Who>
    ensures { result ≡ signer_of message.now }
{
    match message {
        Message::Request(x) => Some(Who::Client(x.client)),
        Message::PrePrepare(x) => Some(Who::Replica(x.signer)),
        Message::Prepare(x) | Message::Commit(x) => Some(Who::Replica(x.signer)),
        Message::Checkpoint(x) => Some(Who::Replica(x.signer)),
        Message::ViewChange(x) => Some(Who::Replica(x.signer)),
        Message::NewView(x) => Some(Who::Replica(x.signer)),
        Message::Drvc(x) | Message::Rvc(x) => Some(Who::Replica(x.signer)),
        Message::ReplyNote(x) => Some(Who::Replica(x.signer)),
        Message::Share(_) | Message::Fetch(_) => None,
    }
}

/// The signature that a message bears, which may be empty. `None` comes exactly for the kinds that nobody signs: a Share and a Fetch.
/// Takes no memory.
pub fn signature(message: &Message) -> Option<&Bytes>
    ensures is { MatchOption result (signature_of message.now ≡ []) (λ sig. sig.now ≡ signature_of message.now) }
    ensures when { is_some result ≡ is_some (signer_of message.now) }
{
    match message {
        Message::Request(x) => Some(&x.sig),
        Message::PrePrepare(x) => Some(&x.sig),
        Message::Prepare(x) | Message::Commit(x) => Some(&x.sig),
        Message::Checkpoint(x) => Some(&x.sig),
        Message::ViewChange(x) => Some(&x.sig),
        Message::NewView(x) => Some(&x.sig),
        Message::Drvc(x) | Message::Rvc(x) => Some(&x.sig),
        Message::ReplyNote(x) => Some(&x.sig),
        Message::Share(_) | Message::Fetch(_) => None,
    }
}

/// The message with this signature in place of its own. One of a kind that nobody signs stays what it is. Takes no memory.
pub fn with_signature(message: Message, sig: Bytes) -> Message
    ensures { result ≡ with_sig sig message }
{
    match message {
        Message::Request(x) => Message::Request(Request { sig, ..x }),
        Message::PrePrepare(x) => Message::PrePrepare(PrePrepare { sig, ..x }),
        Message::Prepare(x) => Message::Prepare(Vote { sig, ..x }),
        Message::Commit(x) => Message::Commit(Vote { sig, ..x }),
        Message::Checkpoint(x) => Message::Checkpoint(StableVote { sig, ..x }),
        Message::ViewChange(x) => Message::ViewChange(ViewChange { sig, ..x }),
        Message::NewView(x) => Message::NewView(NewView { sig, ..x }),
        Message::Drvc(x) => Message::Drvc(Plea { sig, ..x }),
        Message::Rvc(x) => Message::Rvc(Plea { sig, ..x }),
        Message::ReplyNote(x) => Message::ReplyNote(Note { sig, ..x }),
        Message::Share(x) => Message::Share(x),
        Message::Fetch(x) => Message::Fetch(x),
    }
}
