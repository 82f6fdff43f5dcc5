//! Where the fabric's bytes come from and where they go.
//!
//! A `Source` gives the bytes of a script and a `Sink` takes those of a report. A contract sees each as one record: a `Supply` (the
//! bytes left, how many were given, how many reads failed) and an `Intake` (the bytes taken, how many writes failed); `specs/Devices`
//! says in one relation what a read or a write does to it. A caller may conclude that a source ends only where nothing is left, and
//! that either fails only where its count of faults rose.
//!
//! `ReadSource` and `WriteSink` adapt std's readers and writers; they are the edge to standard input and output, of which no contract
//! tells the bytes. `MemSource` and `MemSink` hold bytes in memory and fail where they are told to; `specs/Memory` says what they
//! answer, exactly.
#![tactic(auto)]

mod devices;
mod memory;
mod std_devices;

pub use devices::{Got, Sink, Source, Sunk};
pub use memory::{MemSink, MemSource};
pub use std_devices::{ReadSource, WriteSink};
