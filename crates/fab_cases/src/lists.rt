//! Lists: what is pushed stands there, and a copy is equal.

use crate::copies::is_copied;
use crate::words::{Answer, Unanswered, at, bytes, number, shown};
use fab_base::{Entries, NoMemory, Numbers};
use std::alloc::Global;

/// `numbers N..` pushes one after another, and tells the length, whether a copy is equal, the last item and what stands behind it;
/// `entries KEY VALUE` tells whether a copy of that one entry is equal.
pub(crate) fn answer(alloc: Global, line: &str) -> Answer {
    match at(line, 1) {
        "numbers" => numbers(alloc, line),
        "entries" => shown(alloc, &is_copied(&entries(alloc, line)?)?),
        _ => Err(Unanswered::Unreadable),
    }
}

/// Numbers, pushed one after another.
fn numbers(alloc: Global, line: &str) -> Answer {
    let mut numbers = Numbers::new(alloc);
    for word in line.split(' ').skip(2) {
        numbers.push(word.parse().or(Err(Unanswered::Unreadable))?)?;
    }
    let copied = is_copied(&numbers)?;
    let (len, last) = (numbers.len(), numbers.get(numbers.len().saturating_sub(1)));
    Ok(format!(in alloc; "{len} items, {copied}, {last:?}, {:?}", numbers.get(len))?)
}

/// One key with its value.
fn entries(alloc: Global, line: &str) -> Result<Entries, NoMemory> {
    let mut entries = Entries::new(alloc);
    entries.push((bytes(alloc, line, 2)?, bytes(alloc, line, 3)?))?;
    Ok(entries)
}
