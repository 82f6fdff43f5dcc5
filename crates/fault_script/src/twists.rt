//! What a script has go wrong. Timeouts are read from its lines; no line sets a fault or a loss yet, and a script has none.
use fab_base::{ReplicaId, Rows};

/// What a faulty replica does (ours). It runs as a correct one does; what it sends is changed.
#[derive(Clone, Copy, Debug, Drop, PartialEq, Eq)]
pub enum Fault {
    /// It puts no parcel.
    Silent,
    /// A batch that it proposes goes to members of even index alone; those of odd index get the null batch.
    Equivocate,
    /// It puts no certificate for a cluster.
    Withhold {
        /// The cluster, from 1.
        cluster: u8,
    },
    /// It spoils the last byte of some parcels.
    Garble {
        /// Of the parcels that it puts, counted from 1, each whose number this one divides is spoiled; at least 1.
        every: u32,
    },
    /// It puts each parcel twice.
    Replay,
}

/// A replica that is faulty (ours).
#[derive(Clone, Copy, Debug, Drop, PartialEq, Eq)]
pub struct FaultLine {
    /// Which one.
    pub replica: ReplicaId,
    /// What it does.
    pub fault: Fault,
}

/// The faulty replicas of a script, in its order.
pub type FaultLines = Rows<FaultLine>;

/// Copies on a link that are lost, or that pass once more (ours).
#[derive(Clone, Copy, Debug, Drop, PartialEq, Eq)]
pub struct Loss {
    /// The sender; every replica but the receiver, link by link, where there is none.
    pub from: Option<ReplicaId>,
    /// The receiver, which isn't the sender.
    pub to: ReplicaId,
    /// Whether certificates alone are counted; else each copy on the link is.
    pub share: bool,
    /// Of the copies that are counted on the link, from 1, each whose number this one divides: 1 to 1,000.
    pub every: u32,
    /// Whether such a copy passes once more; else it is lost.
    pub again: bool,
}

/// The losses and repeats of a script, in its order.
pub type Losses = Rows<Loss>;

/// One timeout (ours).
#[derive(Clone, Copy, Debug, Drop, PartialEq, Eq)]
pub struct TimeoutLine {
    /// Who gets it.
    pub replica: ReplicaId,
    /// It is given once the journals together have so many entries: 0 to `MOST_TURNS`.
    pub entries: u32,
}

/// The timeouts of a script, in its order.
pub type TimeoutLines = Rows<TimeoutLine>;
