//! Why bytes are refused as a public key or as a signature.

/// Why a public key or a signature is refused. RFC 8554 has the one answer INVALID for all of these;
/// the names and their order are this project's own.
#[derive(Clone, Copy, Debug, PartialEq, Eq)]
pub enum SigFault {
    /// The bytes are not as many as a key has, or a signature of the key's types.
    BadLength,
    /// A type is unknown, or is not the key's.
    BadType,
    /// The leaf's number is 2^h or more.
    BadLeaf,
    /// The root that the signature leads to is not the key's: the signature is of another content,
    /// by another key, or spoiled.
    WrongRoot,
}
