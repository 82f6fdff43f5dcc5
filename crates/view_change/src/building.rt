//! What a replica reports when it asks for a view.
ghost use Rattle.std.specs.Prelude.{◌≡◌, [], IfOk};

use crate::NoMemory;
use fab_base::{Bytes, PreparedCerts, ReplicaId, StableVotes, ViewChange};
use std::alloc::Global;

/// The statement by which a replica asks for a view (PBFT, section 4.4, the message VIEW-CHANGE). It lists just what is given, as
/// copies in the same order: the low mark and the proof of it, which is empty at 0, and the prepared certificates of slots above the
/// mark. The signature is empty. Fails only where memory is refused, and what was lent stays as it was.
///
/// Views and low marks are at most 2^62 in a message that is shaped. Nothing is judged here.
pub fn build(
    alloc: Global,
    signer: ReplicaId,
    view: u64,
    low: u64,
    proof: &StableVotes,
    prepared: &PreparedCerts,
) -> Result<ViewChange, NoMemory>
    ensures { IfOk result (λ change. change ≡ record { signer = signer; view = view; low = low; proof = proof.now; prepared = prepared.now; sig = [] }) }
{
    Ok(ViewChange {
        signer,
        view,
        low,
        proof: proof.copy()?,
        prepared: prepared.copy()?,
        sig: Bytes::new(alloc),
    })
}
