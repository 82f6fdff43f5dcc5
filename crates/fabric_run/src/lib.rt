//! The top call: from the words of a command and the bytes of a script to the bytes of a report.
//!
//! `fabric` takes the words, a source of the script, a sink of the report and a place for the transcript of a run, and answers how it
//! ended. Below it stand `plain` (the requests of a script, applied in order to one table), `simulate_script` (the replicas of a script,
//! run to the end), and the moving of bytes in and out. The reader of scripts is the crate `fault_script`, the run `script_sim`, how it
//! ended `fabric_audit`, and the lines of a report `ledger_report`. What is written is said in `specs/`: `Transfer`, `Exits`, `Plain` and
//! `Simulated` can be read aloud, in this order. `Ends` and `IsRun` say what each exit tells, for any command, by what it makes of a
//! script: which exit, and which text.
#![tactic(auto)]

mod command;
mod exits;
mod sequential;
mod simulation;
mod top;
mod transfer;

pub use command::Command;
pub use exits::Exit;
pub use fab_base::NoMemory;
pub use fault_script::{BadScript, Why};
pub use sequential::plain;
pub use simulation::simulate_script;
pub use top::fabric;
pub use transfer::SCRIPT_BYTES;
