//! The bytes that tell what follows (ours).

/// The number of the format, in front of every spelling.
pub const FORMAT: u8 = 1;

/// The tag of a request.
pub const REQUEST: u8 = 1;
/// The tag of a proposal.
pub const PRE_PREPARE: u8 = 2;
/// The tag of a Prepare.
pub const PREPARE: u8 = 3;
/// The tag of a Commit.
pub const COMMIT: u8 = 4;
/// The tag of a checkpoint.
pub const CHECKPOINT: u8 = 5;
/// The tag of a view change.
pub const VIEW_CHANGE: u8 = 6;
/// The tag of a new view.
pub const NEW_VIEW: u8 = 7;
/// The tag of a plea inside the own cluster.
pub const DRVC: u8 = 8;
/// The tag of a plea to the other cluster.
pub const RVC: u8 = 9;
/// The tag of a note.
pub const REPLY_NOTE: u8 = 10;
/// The tag of a certificate that is shared.
pub const SHARE: u8 = 11;
/// The tag of an ask.
pub const FETCH: u8 = 12;

/// The kind of an operation that sets a value.
pub const PUT: u8 = 1;
/// The kind of an operation that reads one.
pub const GET: u8 = 2;
/// The kind of an operation that removes one.
pub const CUT: u8 = 3;
/// The kind of an operation that sets a value where it is the expected one.
pub const SWAP: u8 = 4;

/// The outcome that a value was written.
pub const WROTE: u8 = 1;
/// The outcome that a value was found.
pub const FOUND: u8 = 2;
/// The outcome that there was none.
pub const ABSENT: u8 = 3;
/// The outcome that the stamp comes again.
pub const AGAIN: u8 = 4;
/// The outcome that the stamp comes early.
pub const EARLY: u8 = 5;
