//! The words that every crate of the fabric shares: who takes part, what is asked and answered, what replicas tell each other.
//!
//! Start with `Members` (the clusters, their sizes and the homes of the clients) and with `Message` (the twelve kinds of statement
//! that replicas and clients send). `core_cases` makes a fabric of what a line names, and gives a request to the replicas of its
//! client's home:
//!
//! ```text
//! if !is_within_limits(&sizes, &homes, window, interval, batch) {
//!     return Err(Unanswered::Unreadable);
//! }
//! let members = members(alloc, &sizes, &homes, window, interval, batch)?;
//! ..
//! if !members.has(Who::Client(request.client)) {
//!     return Err(Unanswered::Unreadable);
//! }
//! let home = members.home(request.client);
//! ```
//!
//! A handle is shared by `members.share()?`, and `is_same` compares two by value. Every list in a message is a `Rows`, which a
//! contract sees as a list, so that a whole message is plain data there and `≡` is equality of contents.
//!
//! Definitions stand in `specs/` for all crates above, and nowhere else: `Limits` (the members of a fabric within its limits, which
//! `limits.rt` names), `Fields` (what fits a field), `Quorums` (how many members may be faulty, how many make a quorum, and what a
//! quorum is) and `Table` (the sequential table: what a list of requests means when they are applied one after another).
//! `quorum_law` is the fact on which every agreement rests: two quorums share more members than may be faulty; and
//! `correct_member_law` the other: among more members than may be faulty one is correct.
//!
//! Nothing here decides anything, and only `members`, `share`, `replicas`, `put_members` and the copies take memory.
#![tactic(auto)]

mod answers;
mod duplicates;
mod ids;
mod keeping;
mod limits;
mod listing;
mod making;
mod messages;
mod quorums;
mod requests;
mod roster;

pub use answers::{Answer, Item, Take, Targets};
pub use fab_rows::{Bytes, Duplicate, Entries, NoMemory, Numbers, Rows};
pub use ids::{ClientId, Hash32, ReplicaId, Who};
pub use keeping::is_within_limits;
pub use limits::{
    GREATEST_COUNT, GREATEST_NUMBER, LONGEST_KEY, LONGEST_MESSAGE, LONGEST_SIGNATURE,
    LONGEST_VALUE, MOST_CERTIFICATES, MOST_CLIENTS, MOST_CLUSTERS, MOST_MEMBERS, MOST_REPLICAS,
    MOST_REQUESTS, MOST_SLOTS, MOST_STAMPS, MOST_STATEMENTS,
};
pub use listing::put_members;
pub use making::members;
pub use messages::{
    Ask, CommitCert, Message, NewView, Note, NoteLine, NoteLines, Plea, PrePrepare, PreparedCert,
    PreparedCerts, StableVote, StableVotes, ViewChange, ViewChanges, Vote, Votes,
};
pub use quorums::{correct_member_law, faults, primary, quorum, quorum_law};
pub use requests::{Batch, Op, Outcome, Outcomes, Reply, Request};
pub use roster::{Contents, Members};
