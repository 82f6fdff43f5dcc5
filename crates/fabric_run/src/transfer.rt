//! Moving bytes: the whole of a source into memory and into a script, and the whole of a text to a sink.
ghost use Rattle.std.specs.Prelude.{◌≡◌, true, IfOk, IfErr};
ghost use Rattle.fault_script.specs.Scripts.{keeps_limits};
ghost use Rattle.fabric_run.specs.Transfer.{ReadEnds, WriteEnds};
ghost use Rattle.fabric_run.specs.Exits.{GaveScript, Stops, HandsOver};

use crate::exits::Exit;
use fab_base::{Bytes, Rows};
use fab_io::{Got, Sink, Source, Sunk};
use fault_script::{Script, ScriptFault, read};
use std::alloc::Global;

/// The most bytes of a script.
pub const SCRIPT_BYTES: usize = 1_048_576;

/// How many bytes are asked for at once.
const ROOM: usize = 4_096;

/// Why a source isn't read to its end.
#[derive(Clone, Copy, Debug, Drop, PartialEq, Eq)]
enum ReadStop {
    /// A read failed.
    Fault,
    /// It gave more bytes than a script may have.
    TooLong,
    /// Memory is refused.
    NoMemory,
}

/// All bytes that a source has left, at most those of a script.
fn read_all<S: Source>(alloc: Global, source: &mut S) -> Result<Bytes, ReadStop>
    ensures { ReadEnds (S.supply source.old) (S.supply source.new) result }
{
    let mut bytes = Vec::new(alloc);
    let mut room = [0u8; ROOM];
    loop {
        match source.read(&mut room) {
            Got::Failed => return Err(ReadStop::Fault),
            Got::End => return Ok(Rows::from_vec(bytes)),
            Got::Bytes(n) => {
                if n > SCRIPT_BYTES - bytes.len() {
                    return Err(ReadStop::TooLong);
                }
                if bytes.extend_from_slice(&room[..n]).is_err() {
                    return Err(ReadStop::NoMemory);
                }
            }
        }
    }
}

/// The script that a source gives, or the exit where it gives none.
pub(crate) fn script_from<S: Source>(alloc: Global, source: &mut S) -> Result<Script, Exit>
    ensures script { IfOk result (λ script. GaveScript (S.supply source.old) (S.supply source.new) script) }
    ensures limits { IfOk result (λ script. keeps_limits script ≡ true) }
    ensures stops { IfErr result (λ exit. Stops (S.supply source.old) (S.supply source.new) exit) }
{
    let bytes = match read_all(alloc, source) {
        Ok(bytes) => bytes,
        Err(ReadStop::Fault) => return Err(Exit::ReadFault),
        Err(ReadStop::TooLong) => return Err(Exit::TooLong),
        Err(ReadStop::NoMemory) => return Err(Exit::NoMemory),
    };
    match read(alloc, bytes.as_slice()) {
        Ok(script) => Ok(script),
        Err(ScriptFault::Bad(bad)) => Err(Exit::BadScript(bad)),
        Err(ScriptFault::NoMemory) => Err(Exit::NoMemory),
    }
}

/// Hands a whole text to a sink. `Err` comes where a write fails, with the number of bytes that the sink took.
fn write_all<K: Sink>(sink: &mut K, text: &[u8]) -> Result<(), usize>
    ensures { WriteEnds (K.intake sink.old) (K.intake sink.new) text.now result }
{
    let mut written = 0;
    while written < text.len() {
        match sink.write(&text[written..]) {
            Sunk::Failed => return Err(written),
            Sunk::Wrote(n) => written += n,
        }
    }
    Ok(())
}

/// Hands a whole report to a sink: the exit that goes with it, or that a write failed.
pub(crate) fn hand_over<K: Sink>(sink: &mut K, text: &[u8], exit: Exit) -> Exit
    ensures { HandsOver (K.intake sink.old) (K.intake sink.new) text.now exit result }
{
    match write_all(sink, text) {
        Ok(()) => exit,
        Err(written) => Exit::WriteFault {
            written: written as u64,
        },
    }
}
