//! Reads a script, and writes what `script_keys` makes of it, so that another implementation can be held against ours. What is written:
//!
//! | Line | For |
//! |---|---|
//! | `replica key DIGEST` | each replica, by id: SHA-256 of the 56 bytes of its public key (RFC 8554, section 5.3) |
//! | `client key DIGEST` | each client, by number: the same |
//! | `request PLACE DIGEST` | each request, by its place in the script, from 0: SHA-256 of the signed request's bytes |
//! | `chain ROUND HASH` | the same request: the chain of a ledger in which it is the one request of this round's block, of its client's home |
//! | `copy PLACE to ID` | each copy of the request that is on its way when a run begins |
//!
//! A digest is in hex. A batch of one request is spelled as the request itself is as a message: the count 1 stands where the number of the
//! format does. So its digest is that of the request's bytes.
//!
//! Of a script that isn't read the fault is written.
#![tactic(auto)]

mod answers;

use fault_script::read;

fn main(rt: HostRuntime) -> anyhow::Result<()> {
    let alloc = rt.alloc();
    let mut bytes = Vec::new(alloc);
    for line in rt.lines(alloc) {
        bytes.extend_from_slice(line?.as_bytes())?;
        bytes.push(b'\n')?;
    }
    match read(alloc, &bytes) {
        Ok(script) => {
            for line in answers::lines_of(alloc, &script)? {
                println!(rt; "{line}")?;
            }
        }
        Err(fault) => println!(rt; "{fault:?}")?,
    }
    Ok(())
}
