//! What is wrong with a message that can be read.

/// The first thing that is wrong with a message (ours). Each tells the number of the part at which it is: the message itself is part
/// 0, and the statements inside it are numbered on in the order of their first bytes.
#[derive(Clone, Copy, Debug, Drop, PartialEq, Eq)]
pub enum Misfit {
    /// The part's signer or asker, or a cluster that it names, doesn't take part.
    Stranger {
        /// The number of the part.
        part: u32,
    },
    /// The part's own fields break a rule of its kind.
    BadShape {
        /// The number of the part.
        part: u32,
    },
    /// A certificate or a proof in the part isn't a quorum's equal statements.
    BadCert {
        /// The number of the part.
        part: u32,
    },
    /// The statements of a certificate in the part bear another digest than that of its batch.
    WrongDigest {
        /// The number of the part.
        part: u32,
    },
}
