//! The limits of a fabric (ours). Each number is named here once, and contracts, definitions and code cite the name.

/// The most clusters. They are numbered from 1.
pub const MOST_CLUSTERS: u8 = 6;

/// The most replicas of a cluster, which has at least one.
pub const MOST_MEMBERS: u8 = 10;

/// The most replicas of all clusters together.
pub const MOST_REPLICAS: u8 = 30;

/// The most clients. They are numbered from 0.
pub const MOST_CLIENTS: u8 = 64;

/// The most slots that are open at once above the low mark, and so the greatest checkpoint interval.
pub const MOST_SLOTS: u8 = 16;

/// The most requests of a batch, and so the most lines of a note.
pub const MOST_REQUESTS: u8 = 8;

/// The most requests of a client in a script, and so the greatest stamp there.
pub const MOST_STAMPS: u32 = 32;

/// The most statements of a certificate, of a proof and of a new view: one of each member.
pub const MOST_STATEMENTS: u8 = 10;

/// The most prepared certificates of a view change: one of each open slot.
pub const MOST_CERTIFICATES: u8 = 16;

/// The most bytes of a key.
pub const LONGEST_KEY: usize = 32;

/// The most bytes of a value.
pub const LONGEST_VALUE: usize = 64;

/// The most bytes of a signature.
pub const LONGEST_SIGNATURE: usize = 6_000;

/// The most bytes of a message.
pub const LONGEST_MESSAGE: usize = 16_777_216;

/// The greatest view, slot, round and low mark: 2^62.
pub const GREATEST_NUMBER: u64 = 4_611_686_018_427_387_904;

/// The greatest count of a plea: 2^30.
pub const GREATEST_COUNT: u32 = 1_073_741_824;
