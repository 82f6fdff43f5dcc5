//! How a run of the program ends.
ghost use Rattle.std.specs.Prelude.{◌≡◌};
ghost use Rattle.fabric_run.specs.Statuses.{status_of};

use fab_base::ClientId;
use fault_script::BadScript;
use run_words::Evidence;

/// How a call of the program ends.
#[derive(Debug, Drop)]
pub enum Exit {
    /// All was done and written.
    Done,
    /// The words are no command. Nothing was read or written.
    Usage,
    /// A read of the script failed. Nothing was written.
    ReadFault,
    /// A write of the report failed.
    WriteFault {
        /// The sink took so many bytes of the report, from its front.
        written: u64,
    },
    /// The script has more bytes than `SCRIPT_BYTES`. Nothing was written.
    TooLong,
    /// The script has a bad line. Nothing was written.
    BadScript(BadScript),
    /// Nothing moved any more, and some request of the script had no effect in some replica's ledger: the first, in the order of the
    /// script. All was written.
    Stalled {
        /// Who asked.
        client: ClientId,
        /// The number of the request among the client's, from 1.
        stamp: u32,
    },
    /// The run was cut off: it had as many entries as the script allows. All was written.
    Spent {
        /// The number of entries of all journals.
        entries: u64,
    },
    /// A premise under which ledgers agree doesn't hold of the run. All was written.
    Broken(Evidence),
    /// Memory was refused. Nothing was written.
    NoMemory,
}

impl Exit {
    /// The status that the program ends with.
    pub fn status(&self) -> u8
        ensures { result ≡ status_of self.now }
    {
        match self {
            Exit::Done => 0,
            Exit::Usage => 2,
            Exit::ReadFault => 3,
            Exit::WriteFault { written: _ } => 4,
            Exit::TooLong => 5,
            Exit::BadScript(_) => 6,
            Exit::Stalled {
                client: _,
                stamp: _,
            } => 7,
            Exit::Spent { entries: _ } => 8,
            Exit::Broken(_) => 9,
            Exit::NoMemory => 10,
        }
    }
}
