//! The reader: the bytes of a script to what it declares, or to its first bad line and the first cause.
ghost use Rattle.std.specs.Prelude.{◌≡◌, Ok, Err, true, IfOk, IfErr};
ghost use Rattle.fault_script.specs.Drafts.{empty_draft};
ghost use Rattle.fault_script.specs.Scripts.{script_made, script_of, keeps_limits, IsBad};

use crate::drafts::Draft;
use crate::faults::{BadScript, LineFault, ScriptFault};
use crate::lines::line;
use crate::scripts::Script;
use crate::words::first_line;
use std::alloc::Global;

impl Script {
    /// The script that declares nothing: each setting has its default. Takes no memory.
    pub fn empty(alloc: Global) -> Script
        ensures { result ≡ script_made empty_draft }
    {
        Draft::new(alloc).finish()
    }
}

/// Reads a script. `Bad` comes exactly where a line is bad, and names the first such line and its first cause; memory is refused
/// only where the script's own copies and lists can't grow.
pub fn read(alloc: Global, bytes: &[u8]) -> Result<Script, ScriptFault>
    ensures script { IfOk result (λ script. script_of bytes.now ≡ Ok script) }
    ensures bad { IfErr result (λ fault. IsBad fault (λ bad. script_of bytes.now ≡ Err bad)) }
    ensures limits { IfOk result (λ script. keeps_limits script ≡ true) }
{
    let mut draft = Draft::new(alloc);
    let mut rest = bytes;
    let mut number = 1u64;
    while !rest.is_empty() {
        let (text, after) = first_line(rest);
        match line(&mut draft, text) {
            Ok(()) => {}
            Err(LineFault::Bad(why)) => {
                return Err(ScriptFault::Bad(BadScript { line: number, why }));
            }
            Err(LineFault::NoMemory) => return Err(ScriptFault::NoMemory),
        }
        rest = after;
        number += 1;
    }
    Ok(draft.finish())
}
