//! The program: its words, standard input and standard output go to the top call, and its status says how that ended.
#![tactic(auto)]

use fab_io::{ReadSource, WriteSink};
use fabric_run::{Exit, fabric};
use run_words::Transcript;
use std::fmt::{Display, Formatter, Write};
use std::io::ErrorKind;
use std::process::ExitCode;
use std::{env, fmt, io};

/// The line on standard error for an exit at which not all was written.
#[derive(Drop)]
struct Line<'a>(&'a Exit);

impl Display for Line<'_> {
    fn fmt<W: Write>(&self, f: &mut Formatter<W>) -> fmt::Result {
        match self.0 {
            Exit::Done | Exit::Stalled { .. } | Exit::Spent { .. } | Exit::Broken(_) => Ok(()),
            Exit::Usage => {
                write!(
                    f,
                    "usage: fabric plain | sim | run | watch CLIENT | gen NUMBER"
                )
            }
            Exit::ReadFault => write!(f, "read fault"),
            Exit::WriteFault { written: _ } => write!(f, "write fault"),
            Exit::TooLong => write!(f, "script too long"),
            Exit::BadScript(bad) => write!(f, "{bad}"),
            Exit::NoMemory => write!(f, "no memory"),
        }
    }
}

/// Whether all was written. The report itself then says how the run ended.
fn is_written(exit: &Exit) -> bool {
    matches!(
        exit,
        Exit::Done | Exit::Stalled { .. } | Exit::Spent { .. } | Exit::Broken(_)
    )
}

/// The exit of the top call over standard input and output.
fn run(rt: &HostRuntime) -> Exit {
    let args = match env::args(rt) {
        Ok(args) => args,
        Err(error) if error.kind() == ErrorKind::OutOfMemory => return Exit::NoMemory,
        Err(_) => return Exit::Usage,
    };
    let Ok(words) = args.skip(1).collect::<Vec<String>>(rt.alloc()) else {
        return Exit::NoMemory;
    };
    let mut script = ReadSource::of(rt.reader());
    let mut report = WriteSink::of(io::writer(rt));
    let mut kept = Transcript::empty(rt.alloc());
    fabric(
        rt.alloc(),
        words.as_slice(),
        &mut script,
        &mut report,
        &mut kept,
    )
}

fn main(rt: HostRuntime) -> ExitCode {
    let exit = run(&rt);
    if !is_written(&exit) {
        let line = Line(&exit);
        let _ = eprintln!(rt; "{line}");
    }
    ExitCode::from(exit.status())
}
