//! Calls of `lms_tree`.
use crate::changes::changed;
use crate::words::{Unanswered, content, height, kind, low_height, number};
use fab_rows::Bytes;
use lms_tree::{Key, OtsSeed, Public, make, sign_leaf, verify};
use std::alloc::Global;

/// The seed of all keys: the identifier a0 a1 .. af and the secret 00 01 .. 1f.
pub(crate) const SEED: OtsSeed = OtsSeed {
    id: [
        0xa0, 0xa1, 0xa2, 0xa3, 0xa4, 0xa5, 0xa6, 0xa7, 0xa8, 0xa9, 0xaa, 0xab, 0xac, 0xad, 0xae,
        0xaf,
    ],
    seed: [
        0, 1, 2, 3, 4, 5, 6, 7, 8, 9, 10, 11, 12, 13, 14, 15, 16, 17, 18, 19, 20, 21, 22, 23, 24,
        25, 26, 27, 28, 29, 30, 31,
    ],
};

/// What is printed of the seed.
pub(crate) fn seed(alloc: Global) -> Result<String, Unanswered> {
    Ok(format!(in alloc; "{SEED:?}")?)
}

/// The parameters of a height (RFC 8554, section 5.1).
pub(crate) fn parameters(alloc: Global, levels: &str) -> Result<String, Unanswered> {
    let height = height(levels)?;
    let code = height.type_code();
    let levels = height.levels();
    let leaves = height.leaf_count();
    Ok(format!(in alloc; "type {code}, {levels} levels, {leaves} leaves")?)
}

/// The key of these types.
pub(crate) fn key(alloc: Global, ots: &str, levels: &str) -> Result<Key, Unanswered> {
    Ok(make(alloc, SEED, kind(ots)?, low_height(levels)?)?)
}

// The signature of a content by a leaf, and the public key.
fn signed(
    alloc: Global,
    ots: &str,
    levels: &str,
    leaf: &str,
    content: &[u8],
) -> Result<(Public, Bytes), Unanswered> {
    let leaf = number(leaf)?;
    let key = key(alloc, ots, levels)?;
    let public = key.public();
    if leaf >= public.height.leaf_count() {
        return Err(Unanswered::Unreadable);
    }
    Ok((public, sign_leaf(alloc, &key, leaf, content)?))
}

/// How long a signature is, its first bytes and its randomizer.
pub(crate) fn sign(
    alloc: Global,
    ots: &str,
    levels: &str,
    leaf: &str,
    word: &str,
) -> Result<String, Unanswered> {
    let (_, signature) = signed(alloc, ots, levels, leaf, content(word))?;
    let bytes = signature.as_slice();
    let first = hex::encode(alloc, bytes.get(..8).unwrap_or(b""))?;
    let randomizer = hex::encode(alloc, bytes.get(8..40).unwrap_or(b""))?;
    Ok(format!(in alloc; "{} bytes {first}.. with {randomizer}", bytes.len())?)
}

/// The verdict on a signature that is changed and taken for one of another content.
pub(crate) fn verdict(
    alloc: Global,
    ots: &str,
    levels: &str,
    leaf: &str,
    word: &str,
    other: &str,
    changes: &str,
) -> Result<String, Unanswered> {
    let (public, signature) = signed(alloc, ots, levels, leaf, content(word))?;
    judged(
        alloc,
        &public,
        content(other),
        signature.as_slice(),
        changes,
    )
}

// The verdict, in a word.
fn judged(
    alloc: Global,
    key: &Public,
    content: &[u8],
    signature: &[u8],
    changes: &str,
) -> Result<String, Unanswered> {
    let signature = changed(alloc, signature, changes)?;
    match verify(key, content, signature.as_slice()) {
        Ok(()) => Ok(String::from_str(alloc, "valid")?),
        Err(fault) => Ok(format!(in alloc; "{fault:?}")?),
    }
}
