//! The first line: a fabric.
ghost use Rattle.std.specs.Prelude.{◌≤◌, IfOk, IsTrue};
ghost use Rattle.bft_verify.specs.Ring.{is_low};

use crate::keys::{client_keys, replica_keys};
use crate::unanswered::Unanswered;
use bft_verify::{Keyring, keyring};
use fab_base::{Members, is_within_limits, members};
use lms_tree::Height;
use std::alloc::Global;

/// The members of a fabric, and their keys.
#[derive(Debug, Drop)]
pub(crate) struct Fabric {
    /// Who takes part.
    pub(crate) members: Members,
    /// Their public keys.
    pub(crate) ring: Keyring,
}

/// A number of one byte.
fn number(text: &str) -> Result<u8, Unanswered> {
    text.parse().or(Err(Unanswered::Unreadable))
}

/// Numbers with commas between them, or none where there is no text.
fn numbers(alloc: Global, text: &str) -> Result<Vec<u8>, Unanswered> {
    let mut numbers = Vec::new(alloc);
    if !text.is_empty() {
        for word in text.split(',') {
            numbers.push(number(word)?)?;
        }
    }
    Ok(numbers)
}

/// A height of which a fabric has keys.
fn height(text: &str) -> Result<Height, Unanswered>
    ensures { IfOk result (λ height. IsTrue (is_low height)) }
{
    match text {
        "5" => Ok(Height::H5),
        "10" => Ok(Height::H10),
        _ => Err(Unanswered::Unreadable),
    }
}

/// The fabric of these sizes, homes and settings, with the keys of a seed.
fn make_fabric(
    alloc: Global,
    sizes: &[u8],
    homes: &[u8],
    settings: (u8, u8, u8),
    height: Height,
    seed: u64,
) -> Result<Fabric, Unanswered>
    requires { IsTrue (is_low height) }
{
    let (window, interval, batch) = settings;
    if !is_within_limits(sizes, homes, window, interval, batch) {
        return Err(Unanswered::OutOfLimits);
    }
    let members = members(alloc, sizes, homes, window, interval, batch)?;
    let replicas = replica_keys(alloc, seed, height, sizes)?;
    let clients = client_keys(alloc, seed, homes.len() as u8)?;
    let ring = keyring(alloc, &members, replicas.as_slice(), clients.as_slice())?;
    Ok(Fabric { members, ring })
}

/// The fabric that a line names.
pub(crate) fn read_fabric(alloc: Global, line: &str) -> Result<Fabric, Unanswered> {
    let words: Vec<&str> = line.split(' ').collect(alloc)?;
    let [
        "fabric",
        sizes,
        homes,
        window,
        interval,
        batch,
        levels,
        seed,
    ] = words.as_slice()
    else {
        return Err(Unanswered::Unreadable);
    };
    let sizes = numbers(alloc, sizes)?;
    let homes = numbers(alloc, homes)?;
    let settings = (number(window)?, number(interval)?, number(batch)?);
    let levels = height(levels)?;
    let seed = seed.parse().or(Err(Unanswered::Unreadable))?;
    make_fabric(
        alloc,
        sizes.as_slice(),
        homes.as_slice(),
        settings,
        levels,
        seed,
    )
}
