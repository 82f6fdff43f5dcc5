// The answers to questions.

use crate::words::{Unanswered, bytes, hash, height, id, kind, number};
use lmots_core::sign;
use lms_tree::{OtsSeed, SigFault, make, read_public, sign_leaf, verify, write_public};
use std::alloc::{AllocError, Global};

// The answer to one line. `Err` comes only where memory is refused.
pub(crate) fn answer(alloc: Global, line: &str) -> Result<String, AllocError> {
    match answer_words(alloc, line) {
        Ok(answer) => Ok(answer),
        Err(Unanswered::Unreadable) => String::from_str(alloc, "unreadable"),
        Err(Unanswered::NoMemory) => Err(AllocError),
    }
}

fn answer_words(alloc: Global, line: &str) -> Result<String, Unanswered> {
    let words: Vec<&str> = line.split(' ').collect(alloc)?;
    match words.as_slice() {
        ["verify", key, content, signature] => answer_verify(alloc, key, content, signature),
        ["read", key] => answer_read(alloc, key),
        ["public", kind, height, id, seed] => answer_public(alloc, kind, height, id, seed),
        ["onetime", kind, id, seed, leaf, randomizer, content] => {
            answer_onetime(alloc, kind, id, seed, leaf, randomizer, content)
        }
        ["sign", kind, height, id, seed, leaf, content] => {
            answer_sign(alloc, kind, height, id, seed, leaf, content)
        }
        _ => Err(Unanswered::Unreadable),
    }
}

fn seed_of(identifier: &str, secret: &str) -> Result<OtsSeed, Unanswered> {
    Ok(OtsSeed {
        id: id(identifier)?,
        seed: hash(secret)?,
    })
}

fn refused(alloc: Global, fault: SigFault) -> Result<String, Unanswered> {
    Ok(format!(in alloc; "refused {fault:?}")?)
}

fn answer_verify(
    alloc: Global,
    key: &str,
    content: &str,
    signature: &str,
) -> Result<String, Unanswered> {
    let key = bytes(alloc, key)?;
    let content = bytes(alloc, content)?;
    let signature = bytes(alloc, signature)?;
    match read_public(key.as_slice()) {
        Err(fault) => refused(alloc, fault),
        Ok(key) => match verify(&key, content.as_slice(), signature.as_slice()) {
            Ok(()) => Ok(String::from_str(alloc, "valid")?),
            Err(fault) => refused(alloc, fault),
        },
    }
}

fn answer_read(alloc: Global, key: &str) -> Result<String, Unanswered> {
    let key = bytes(alloc, key)?;
    match read_public(key.as_slice()) {
        Err(fault) => refused(alloc, fault),
        Ok(key) => Ok(format!(in alloc; "{:?} {:?}", key.ots, key.height)?),
    }
}

fn answer_public(
    alloc: Global,
    ots: &str,
    levels: &str,
    identifier: &str,
    secret: &str,
) -> Result<String, Unanswered> {
    let seed = seed_of(identifier, secret)?;
    let key = make(alloc, seed, kind(ots)?, height(levels)?)?;
    Ok(hex::encode(alloc, write_public(&key.public()))?)
}

fn answer_onetime(
    alloc: Global,
    ots: &str,
    identifier: &str,
    secret: &str,
    leaf: &str,
    randomizer: &str,
    content: &str,
) -> Result<String, Unanswered> {
    let seed = seed_of(identifier, secret)?;
    let content = bytes(alloc, content)?;
    let mut signature = Vec::new(alloc);
    sign(
        &seed,
        number(leaf)?,
        kind(ots)?,
        &hash(randomizer)?,
        content.as_slice(),
        &mut signature,
    )?;
    Ok(hex::encode(alloc, signature.as_slice())?)
}

fn answer_sign(
    alloc: Global,
    ots: &str,
    levels: &str,
    identifier: &str,
    secret: &str,
    leaf: &str,
    content: &str,
) -> Result<String, Unanswered> {
    let seed = seed_of(identifier, secret)?;
    let levels = height(levels)?;
    let leaf = number(leaf)?;
    let content = bytes(alloc, content)?;
    if leaf >= levels.leaf_count() {
        return Err(Unanswered::Unreadable);
    }
    let key = make(alloc, seed, kind(ots)?, levels)?;
    let signature = sign_leaf(alloc, &key, leaf, content.as_slice())?;
    Ok(hex::encode(alloc, signature.as_slice())?)
}
