//! Bytes with changes.
use crate::words::{Unanswered, number};
use std::alloc::Global;

/// A copy of the bytes with changes, which stand between commas, or as they are where there are none.
pub(crate) fn changed(alloc: Global, bytes: &[u8], changes: &str) -> Result<Vec<u8>, Unanswered> {
    let mut bytes = bytes.to_vec(alloc)?;
    if !changes.is_empty() {
        for change in changes.split(',') {
            change_one(&mut bytes, change)?;
        }
    }
    Ok(bytes)
}

fn change_one(bytes: &mut Vec<u8>, change: &str) -> Result<(), Unanswered> {
    if let Some((place, byte)) = change.split_once('=') {
        *at(bytes, place)? = number(byte)?;
    } else if let Some((place, mask)) = change.split_once('^') {
        let mask: u8 = number(mask)?;
        *at(bytes, place)? ^= mask;
    } else if let Some(len) = change.strip_prefix("..") {
        bytes.truncate(number(len)?);
    } else if let Some(byte) = change.strip_prefix('+') {
        bytes.extend_from_slice(&[number(byte)?])?;
    } else {
        return Err(Unanswered::Unreadable);
    }
    Ok(())
}

// The byte at a place.
fn at<'a>(bytes: &'a mut Vec<u8>, place: &str) -> Result<&'a mut u8, Unanswered> {
    bytes
        .as_mut_slice()
        .get_mut(number::<usize>(place)?)
        .ok_or(Unanswered::Unreadable)
}
