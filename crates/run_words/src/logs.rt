//! What a run leaves behind: journals, parcels, traces.
use bft_verify::Refusal;
use fab_base::{Bytes, ClientId, Item, Message, ReplicaId, Rows};
use fault_script::{Fault, Script};

/// Who a message is heard from. A time is the program's own bookkeeping (Lamport's clock, in the form that counts hops): no message,
/// signature or digest has one.
#[derive(Clone, Copy, Debug, Drop, PartialEq, Eq)]
pub enum Origin {
    /// A client, whose request it is.
    Client(ClientId),
    /// A replica, of which a parcel is heard.
    Replica {
        /// The sender of the parcel.
        from: ReplicaId,
        /// The parcel's time.
        time: u64,
    },
}

/// One entry of a journal: an event that a replica's machine took.
#[derive(Debug, Drop)]
pub enum Entry {
    /// A message was heard.
    Heard(Origin, Message),
    /// A batch was proposed because it was full.
    Proposed,
    /// A batch was proposed that needn't be full.
    Nudged,
    /// The first item that waited was sent, signed where the replica itself signs it.
    Sent(Item),
    /// A round was executed.
    Executed,
    /// A Checkpoint was put, or the low mark moved.
    Marked,
    /// A timeout came to something.
    TimedOut,
}

/// The entries of a replica, in the order in which they were made.
pub type Journal = Rows<Entry>;

/// One copy of a sent message for one receiver.
#[derive(Debug, Drop)]
pub struct Parcel {
    /// The receiver.
    pub to: ReplicaId,
    /// Its number among the sender's parcels to that receiver, from 0.
    pub number: u64,
    /// The sender's clock when it was sent.
    pub time: u64,
    /// The message, spelled.
    pub bytes: Bytes,
    /// How often it passes: 1 where nothing is lost and nothing is repeated.
    pub passes: u8,
}

/// The parcels of a replica, in the order in which they were put.
pub type Parcels = Rows<Parcel>;

/// A copy on its way to a receiver.
#[derive(Debug, Drop)]
pub struct Pending {
    /// Who put it.
    pub origin: Origin,
    /// The parcel's number, or the place of the request in the script, from 0.
    pub number: u64,
    /// The bytes.
    pub load: Bytes,
}

/// A receiver refused the bytes of a parcel.
#[derive(Clone, Copy, Debug, Drop, PartialEq, Eq)]
pub struct Turned {
    /// The sender of the parcel.
    pub from: ReplicaId,
    /// The parcel's number among the sender's parcels to this receiver, from 0.
    pub parcel: u64,
    /// What its bytes are refused for.
    pub refusal: Refusal,
}

/// The parcels that a receiver refused, in the order in which it did.
pub type TurnedList = Rows<Turned>;

/// The contents that a replica signed, in order: the one at place k by leaf k.
pub type Contents = Rows<Bytes>;

/// What a replica leaves behind.
#[derive(Debug, Drop)]
pub struct Trace {
    /// Whose it is.
    pub id: ReplicaId,
    /// How it was faulty, if it was.
    pub fault: Option<Fault>,
    /// Its entries.
    pub journal: Journal,
    /// The contents that it signed.
    pub signed: Contents,
    /// What it put.
    pub parcels: Parcels,
    /// What it refused.
    pub refused: TurnedList,
    /// How many items still wait.
    pub unsent: u64,
}

/// One trace for each replica, by id.
pub type Traces = Rows<Trace>;

/// The number of entries of each replica's journal, by id.
pub type Counts = Rows<u64>;

/// A quiet moment: nothing was on its way, and nobody could move of its own accord.
#[derive(Debug, Drop)]
pub struct Moment {
    /// How many entries each journal had.
    pub entries: Counts,
    /// Whether it ended in timeouts: nobody could be nudged, and there was patience left.
    pub timed: bool,
}

/// Quiet moments, in order.
pub type Moments = Rows<Moment>;

/// A whole run.
#[derive(Debug, Drop)]
pub struct Transcript {
    /// The script that was run.
    pub script: Script,
    /// What its replicas left behind.
    pub traces: Traces,
    /// Its quiet moments.
    pub moments: Moments,
    /// How many more quiet moments might have ended in timeouts.
    pub timeouts_left: u32,
}
