//! Where a certificate is kept.

/// The round and the cluster of a certificate.
#[derive(Clone, Copy, Debug, Drop, PartialEq, Eq, Hash)]
pub(crate) struct Place {
    pub(crate) round: u64,
    pub(crate) cluster: u8,
}
