//! A run that a forged statement breaks, and what is said of it.
//!
//! No lawful run shows a forged statement, so no script brings `fabric sim` there. This program makes one by a stolen key: the logs of the
//! replicas of a script stand ready, and that of 1.1 hears a Prepare which 1.2's key signed and which 1.2's log never said. Bytes from
//! anybody go through the same check as in a run, and the signature is a valid one, so the Prepare is let in. Then the logs leave their
//! traces, as they would after a run, and the transcript goes through the audit and the report: the audit finds what was forged, the last
//! line of the report says so, and the status is that of `fabric` at such an end.
//!
//! It reads a script of one cluster of three replicas or more from standard input; the requests of the script aren't run. Where the audit
//! finds nothing, or the Prepare isn't heard, it says so on standard error and ends with another status.
//!
//! Modules: `forging` has the stolen key and the Prepare, `starting` the logs, `hearing` their hearing, `leaving` their traces, `forged` the
//! transcript of all that, and `endings` what is shown of a transcript; `stops` has the reasons for which there is none.
#![tactic(auto)]

mod endings;
mod forged;
mod forging;
mod hearing;
mod leaving;
mod starting;
mod stops;

use crate::endings::ending_of;
use crate::forged::forged_transcript;
use fault_script::{ScriptFault, read};
use std::alloc::AllocError;
use std::io;
use std::io::Write;
use std::process::ExitCode;

/// The status where the audit finds nothing.
const UNBROKEN: u8 = 1;

/// The status where there is no transcript, or not all was written.
const STOPPED: u8 = 2;

/// Reads the script, makes the transcript, and writes its report. The status.
fn run(rt: &HostRuntime) -> anyhow::Result<u8> {
    let alloc = rt.alloc();
    let mut bytes = Vec::new(alloc);
    for line in rt.lines(alloc) {
        bytes.extend_from_slice(line?.as_bytes())?;
        bytes.push(b'\n')?;
    }
    let script = match read(alloc, &bytes) {
        Ok(script) => script,
        Err(ScriptFault::Bad(bad)) => return Err(bad.into()),
        Err(ScriptFault::NoMemory) => return Err(AllocError.into()),
    };
    let transcript = forged_transcript(alloc, script)?;
    let Some(ending) = ending_of(alloc, &transcript)? else {
        eprintln!(rt; "the audit found nothing")?;
        return Ok(UNBROKEN);
    };
    io::writer(rt).write_all(ending.text.as_slice())?;
    Ok(ending.status)
}

fn main(rt: HostRuntime) -> ExitCode {
    match run(&rt) {
        Ok(status) => ExitCode::from(status),
        Err(error) => {
            let _ = eprintln!(rt; "{error}");
            ExitCode::from(STOPPED)
        }
    }
}
