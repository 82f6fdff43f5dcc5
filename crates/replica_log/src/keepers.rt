//! What a log keeps.
use bft_verify::Keyring;
use fab_base::{Bytes, Members, ReplicaId};
use parcel_post::Numbers;
use replica_core::Core;
use run_words::Entry;

/// What a log keeps of a replica: its core, the entries that it made, its clock, the contents that it signed, and its signer. The
/// definitions of `specs/Keeping` say what holds of them together.
#[derive(Drop)]
pub(crate) struct Keeper<S> {
    pub(crate) me: ReplicaId,
    pub(crate) members: Members,
    pub(crate) ring: Keyring,
    pub(crate) core: Core,
    pub(crate) journal: Vec<Entry>,
    /// One more than the greatest time of what it heard of replicas.
    pub(crate) clock: u64,
    pub(crate) signed: Vec<Bytes>,
    /// How many parcels were put to each receiver.
    pub(crate) numbers: Numbers,
    pub(crate) signer: S,
}
