//! Calls of `lms_leaf`.
use crate::trees::key;
use crate::words::Unanswered;
use lms_leaf::LeafSigner;
use lms_tree::{Public, SignFault, Signer, verify};
use std::alloc::Global;
use std::fmt::Write;

/// The leaves that a signer uses, step by step, and what it says of itself then.
pub(crate) fn steps(
    alloc: Global,
    ots: &str,
    levels: &str,
    steps: &str,
) -> Result<String, Unanswered> {
    let mut signer = LeafSigner::make(key(alloc, ots, levels)?);
    let mut report = String::new(alloc);
    for step in steps.chars() {
        match step {
            '1' => one(&mut signer, &mut report)?,
            '2' => pair(&mut signer, &mut report)?,
            _ => return Err(Unanswered::Unreadable),
        }
    }
    let used = signer.used();
    let spent = signer.spent();
    write!(report, "used {used}, spent {spent}")?;
    Ok(report)
}

fn one(signer: &mut LeafSigner, report: &mut String) -> Result<(), Unanswered> {
    match signer.sign(b"first") {
        Ok(signature) => {
            leaf(&signer.public(), b"first", signature.as_slice(), report)?;
            Ok(report.push(' ')?)
        }
        Err(fault) => refused(fault, report),
    }
}

fn pair(signer: &mut LeafSigner, report: &mut String) -> Result<(), Unanswered> {
    let (first, second) = match signer.sign_both(b"first", b"second") {
        Ok(both) => both,
        Err(fault) => return refused(fault, report),
    };
    leaf(&signer.public(), b"first", first.as_slice(), report)?;
    report.push('+')?;
    match second {
        Some(second) => leaf(&signer.public(), b"second", second.as_slice(), report)?,
        None => report.push_str("none")?,
    }
    Ok(report.push(' ')?)
}

// The leaf that a signature names, where it is valid.
fn leaf(
    key: &Public,
    content: &[u8],
    signature: &[u8],
    report: &mut String,
) -> Result<(), Unanswered> {
    match (verify(key, content, signature), signature) {
        (Ok(()), [a, b, c, d, ..]) => {
            let number = u32::from_be_bytes([*a, *b, *c, *d]);
            Ok(write!(report, "{number}")?)
        }
        _ => Ok(report.push_str("invalid")?),
    }
}

fn refused(fault: SignFault, report: &mut String) -> Result<(), Unanswered> {
    match fault {
        SignFault::KeySpent { used } => Ok(write!(report, "spent at {used} ")?),
        SignFault::NoMemory => Err(Unanswered::NoMemory),
    }
}
