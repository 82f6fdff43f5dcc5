//! What stands in a stage queue.

use bft_verify::Verified;
use run_words::Origin;

/// A message that an input worker verified, to be heard.
#[derive(Drop)]
pub struct Item {
    /// Whom it is heard from, with the time of its parcel.
    pub origin: Origin,
    /// The message, sound for the members and keys that it was verified with.
    pub heard: Verified,
}
