//! What the certificates of a round come to: its blocks, the first cluster that is missing, and whether another cluster is there.
ghost use Rattle.std.specs.Prelude.{◌≡◌, ℕ, true, IfOk};
ghost use Rattle.std.specs.List.{list_all};
ghost use Rattle.fab_machine.specs.Rounds.{blocks_from, knows_others};
ghost use Rattle.round_exec.specs.Book.{is_keepable, missing_of};

use crate::NoMemory;
use crate::certificates::Certificates;
use fab_rules::{Block, Blocks};
use std::alloc::Global;

/// The blocks of a round, one of each cluster, or the first cluster that has no certificate.
pub(crate) fn gather(
    alloc: Global,
    certificates: &Certificates,
    round: u64,
    clusters: u8,
) -> Result<Result<Blocks, u8>, NoMemory>
    ensures { IfOk result (λ gathered. gathered ≡ blocks_from certificates.now round 1 clusters) }
{
    let mut blocks = Vec::with_capacity(alloc, usize::from(clusters))?;
    for before in 0..clusters {
        match certificates.of(round, before + 1) {
            Some(cert) => blocks.push(Block {
                round,
                cluster: cert.cluster,
                batch: cert.batch.copy()?,
            })?,
            None => return Ok(Err(before + 1)),
        }
    }
    Ok(Ok(Blocks::from_vec(blocks)))
}

/// The first cluster that has no certificate of the round, `None` exactly where each has one.
pub(crate) fn first_missing(certificates: &Certificates, round: u64, clusters: u8) -> Option<u8>
    ensures { result ≡ missing_of (blocks_from certificates.now round 1 clusters) }
{
    for before in 0..clusters {
        if certificates.of(round, before + 1).is_none() {
            return Some(before + 1);
        }
    }
    None
}

/// Whether a certificate of another cluster than this one is kept for the round. They are all of so many clusters.
pub(crate) fn knows_others(certificates: &Certificates, own: u8, round: u64, clusters: u8) -> bool
    requires { (clients : ℕ) × (list_all (is_keepable clusters clients) certificates.now ≡ true) }
    ensures { result ≡ knows_others own certificates.now round }
{
    for before in 0..clusters {
        if before + 1 != own && certificates.of(round, before + 1).is_some() {
            return true;
        }
    }
    false
}
