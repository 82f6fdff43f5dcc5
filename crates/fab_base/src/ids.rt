//! Who takes part, and digests.

/// A replica: its cluster, from 1, and its index in the cluster, from 0.
#[derive(Clone, Copy, Debug, Drop, PartialEq, Eq, PartialOrd, Ord, Hash)]
pub struct ReplicaId {
    /// From 1 to the number of clusters, which is at most 6.
    pub cluster: u8,
    /// From 0 to one less than the size of the cluster, which is at most 10.
    pub index: u8,
}

/// A client, by its number from 0 to 63.
#[derive(Clone, Copy, Debug, Drop, PartialEq, Eq, PartialOrd, Ord, Hash)]
pub struct ClientId {
    /// From 0 to one less than the number of clients, which is at most 64.
    pub number: u8,
}

/// Whoever signs statements.
#[derive(Clone, Copy, Debug, Drop, PartialEq, Eq)]
pub enum Who {
    /// A replica of some cluster.
    Replica(ReplicaId),
    /// A client.
    Client(ClientId),
}

/// The 32 bytes of a SHA-256 digest (FIPS 180-4).
#[derive(Clone, Copy, Debug, Drop, PartialEq, Eq, Hash)]
pub struct Hash32 {
    /// The digest, first byte first.
    pub bytes: [u8; 32],
}
