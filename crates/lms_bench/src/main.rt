//! Makes, signs and verifies with LMS keys of kind W4, for `bench/lms.sh` to count and to time.
//!
//! The words are a height, 5 or 10, a number of signatures to make and a number of times to verify the
//! last one. The key, the content and so all that is written are fixed: the root of the key, the
//! SHA-256 of all signatures, and how often the last one was found valid. A leaf is used again here,
//! which no signer may do.
#![tactic(auto)]

ghost use Rattle.std.specs.Prelude.{◌≡◌, ◌≤◌, IfSome};
ghost use Rattle.lms_tree.specs.Heights.{levels};

use anyhow::Context;
use lms_tree::{Height, Key, OtsKind, OtsSeed, Public, make, sign_leaf, verify};
use sha2::{Digest, Sha256};
use std::alloc::{AllocError, Global};
use std::env;

const CONTENT: [u8; 32] = [0x5c; 32];

// The height that a word names.
fn height_of(word: &str) -> Option<Height>
    ensures { IfSome result (λ height. levels height ≤ 10) }
{
    match word {
        "5" => Some(Height::H5),
        "10" => Some(Height::H10),
        _ => None,
    }
}

// Signs the content so often, each time with the next leaf, and again from the first one.
fn sign_all(
    alloc: Global,
    key: &Key,
    height: Height,
    count: u32,
) -> Result<([u8; 32], Vec<u8>), AllocError>
    requires { key.now.height ≡ height }
{
    let mut hasher = Sha256::new();
    let mut last = Vec::new(alloc);
    for i in 0..count {
        let signature = sign_leaf(alloc, key, i % height.leaf_count(), &CONTENT)?;
        hasher.update(signature.as_slice());
        last = signature.into_vec();
    }
    Ok((hasher.finalize(), last))
}

// How often the signature is found valid, of so many times.
fn count_valid(public: &Public, signature: &[u8], times: u32) -> usize {
    (0..times)
        .filter(|_| verify(public, &CONTENT, signature).is_ok())
        .count()
}

fn main(rt: HostRuntime) -> anyhow::Result<()> {
    let words: Vec<String> = env::args(&rt)?.collect(rt.alloc())?;
    let [_, height, signatures, verifications] = words.as_slice() else {
        anyhow::bail!("usage: lms_bench HEIGHT SIGNATURES VERIFICATIONS");
    };
    let height = height_of(height.as_str()).context("the height is 5 or 10")?;
    let signatures: u32 = signatures.parse()?;
    let verifications: u32 = verifications.parse()?;
    let seed = OtsSeed {
        id: [0xa5; 16],
        seed: [0x5a; 32],
    };
    let key = make(rt.alloc(), seed, OtsKind::W4, height)?;
    let public = key.public();
    let root = hex::encode(rt.alloc(), &public.root)?;
    println!(rt; "root {root}")?;
    let (digest, last) = sign_all(rt.alloc(), &key, height, signatures)?;
    let digest = hex::encode(rt.alloc(), &digest)?;
    println!(rt; "signatures {signatures} {digest}")?;
    let valid = count_valid(&public, last.as_slice(), verifications);
    println!(rt; "valid {valid} of {verifications}")?;
    Ok(())
}
