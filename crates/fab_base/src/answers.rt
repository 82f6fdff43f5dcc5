//! What a replica answers to what it hears and to the calls that move it.
use crate::ids::{Hash32, ReplicaId};
use crate::messages::Message;
use fab_rows::Rows;

/// What comes of a message that is heard.
#[derive(Clone, Copy, Debug, Drop, PartialEq, Eq)]
pub enum Take {
    /// It counts.
    Taken,
    /// It isn't for this replica.
    Stray,
    /// Its slot or round is at or below the low mark.
    Old {
        /// The low mark.
        low: u64,
    },
    /// Its slot is above the window.
    Far {
        /// The last slot of the window.
        high: u64,
    },
    /// Its view is above the entered one.
    Ahead {
        /// The entered view.
        view: u64,
    },
    /// Its view is over.
    OtherView {
        /// The view that is entered or asked for.
        view: u64,
    },
    /// The same was taken before.
    Twice,
    /// Another was taken before in its place.
    Conflict {
        /// The digest of what was taken.
        kept: Hash32,
    },
    /// It speaks of something that is settled.
    Past {
        /// The round, stamp or count that is past.
        at: u64,
    },
}

/// Receivers of a message, in the order of sending.
pub type Targets = Rows<ReplicaId>;

/// A message that waits to be sent, or that was sent.
#[derive(Debug, Drop, PartialEq, Eq)]
pub struct Item {
    /// What is sent.
    pub message: Message,
    /// To whom. It is empty for a reply to clients.
    pub to: Targets,
}

/// What a replica answers to an event.
#[derive(Debug, Drop, PartialEq, Eq)]
pub enum Answer {
    /// A message was heard.
    Heard(Take),
    /// A batch was proposed.
    Proposed {
        /// The slot that it was proposed for.
        slot: u64,
        /// The number of its requests.
        count: u8,
    },
    /// Only the primary proposes.
    NotPrimary {
        /// The index of the primary of the view.
        primary: u8,
    },
    /// No batch is proposed while a view change is on.
    Changing {
        /// The view that is asked for.
        view: u64,
    },
    /// The next slot is above the window.
    WindowFull {
        /// The low mark.
        low: u64,
    },
    /// There are too few requests for a batch.
    Waiting {
        /// How many could be proposed.
        eligible: u32,
    },
    /// The first item of the outbox was sent.
    Sent(Item),
    /// The outbox is empty.
    Nothing,
    /// A round was executed.
    Executed {
        /// The round.
        round: u64,
    },
    /// The next round can't be executed.
    NotYet {
        /// The first cluster whose certificate is missing.
        cluster: u8,
    },
    /// A checkpoint was stated.
    Voted {
        /// The round of the checkpoint.
        round: u64,
    },
    /// The low mark was moved.
    Moved {
        /// The new mark.
        low: u64,
    },
    /// No checkpoint is due.
    NotDue {
        /// The round at which the next one is.
        next: u64,
    },
    /// A view was asked for.
    Asked {
        /// The view.
        view: u64,
    },
    /// Another cluster was reported as missing.
    Missed {
        /// The cluster.
        cluster: u8,
    },
    /// The replica has executed less than is stable.
    Behind {
        /// The low mark.
        low: u64,
    },
    /// Nothing is amiss.
    Calm,
}
