//! Calls of `lmots_core`.
use crate::trees::SEED;
use crate::words::{Unanswered, content, kind, number};
use lmots_core::{candidate, checksum, coef, public_of, sign};
use std::alloc::Global;

/// A digit of bytes (RFC 8554, section 3.1.3).
pub(crate) fn digit(
    alloc: Global,
    word: &str,
    bytes: &str,
    place: &str,
) -> Result<String, Unanswered> {
    let kind = kind(word)?;
    let bytes = hex::decode(alloc, bytes)?;
    let place = number::<u16>(place)?;
    if usize::from(place) * usize::from(kind.width()) / 8 >= bytes.len() {
        return Err(Unanswered::Unreadable);
    }
    Ok(format!(in alloc; "{}", coef(bytes.as_slice(), place, kind))?)
}

/// The checksum of a digest of equal bytes (RFC 8554, section 4.4).
pub(crate) fn checksum_of(alloc: Global, word: &str, byte: &str) -> Result<String, Unanswered> {
    Ok(format!(in alloc; "{}", checksum(&[number(byte)?; 32], kind(word)?))?)
}

/// The parameters of a kind (RFC 8554, section 4.1).
pub(crate) fn parameters(alloc: Global, word: &str) -> Result<String, Unanswered> {
    let kind = kind(word)?;
    let code = kind.type_code();
    let width = kind.width();
    let chains = kind.chain_count();
    let shift = kind.checksum_shift();
    let len = kind.signature_len();
    Ok(format!(in alloc;
        "type {code}, width {width}, {chains} chains, shift {shift}, {len} bytes"
    )?)
}

/// The one-time signature of a message by a leaf, behind two bytes that stay, judged as one of another
/// message by another leaf.
pub(crate) fn one_time(
    alloc: Global,
    ots: &str,
    leaf: &str,
    message: &str,
    of_leaf: &str,
    of_message: &str,
) -> Result<String, Unanswered> {
    let kind = kind(ots)?;
    let leaf = number(leaf)?;
    let of_leaf = number(of_leaf)?;
    let mut bytes = [7, 8].to_vec(alloc)?;
    sign(&SEED, leaf, kind, &[0xc0; 32], content(message), &mut bytes)?;
    let signature = &bytes[2..];
    let len = signature.len();
    if len != kind.signature_len() {
        return Err(Unanswered::Unreadable);
    }
    let found = candidate(&SEED.id, of_leaf, kind, content(of_message), signature);
    let whose = if found == public_of(&SEED, leaf, kind) {
        "the"
    } else {
        "another"
    };
    Ok(format!(in alloc; "{len} bytes, {whose} key")?)
}
