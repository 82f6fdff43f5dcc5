//! Cases of a replica (PBFT, GeoBFT), as data: each line of standard input is a question or an event, and is answered on a line
//! of its own behind ` => `. A line that is empty or begins with `#` is passed on as it stands, so that both read as one text.
//!
//! The contracts of `replica_core` and `round_exec` say what each call answers. What they can't say is shown here: that the calls which
//! take memory succeed where there is enough, that they mean what a person expects of examples that were worked by hand, and that several
//! replicas together come to one ledger.
//!
//! A replica is named as `1.0`, by its cluster and its index. Each has mail: copies of the items that were sent to it. A request is named
//! as `0.1`, by its client and its stamp, and has no signature. A batch is its requests with commas between them, or `-` for none. What a
//! Checkpoint bears is named by a replica, as the chain that this one has after the round, or by its first four bytes in hex, with zeros
//! behind them.
//!
//! | Case | What happens | Answer |
//! |---|---|---|
//! | `fabric SIZES HOMES WINDOW BATCH INTERVAL` | a fabric begins, with replicas that heard nothing; numbers stand with commas, `-` for none; without an interval it is 8, or the window where that is less | how many replicas it has |
//! | `request CLIENT STAMP OPERATION` | a request is declared, as `put KEY VALUE`, `get KEY`, `cut KEY` or `swap KEY EXPECTED FRESH` | `declared` |
//! | `send REQUEST` | a copy goes to each replica of the client's home | to how many |
//! | `hear ID request REQUEST` | the replica hears the request | its answer |
//! | `hear ID preprepare SIGNER VIEW SLOT BATCH` | it hears that proposal; so for `prepare` and `commit` | its answer |
//! | `hear ID checkpoint SIGNER ROUND DIGEST` | it hears that Checkpoint | its answer |
//! | `hear ID fetch ASKER CLUSTER ROUND` | it hears that question | its answer |
//! | `next ID`, `last ID` | it hears the oldest or the newest of its mail | its answer, or `None` |
//! | `batch ID`, `nudge ID`, `emit ID`, `execute ID`, `checkpoint ID`, `timeout ID` | the event; what is emitted goes to its receivers' mail | its answer |
//! | `settle first`, `settle last` | see below | the number of events |
//! | `first ID`, `draft ID` | – | the first item that waits; how many bytes of it are to be signed |
//! | `moves ID` | – | which events would make an entry in a journal |
//! | `low ID`, `proof ID` | – | the low mark; the signers of the Checkpoints that prove it |
//! | `ledger ID`, `chain ID`, `missing ID` | – | the blocks, each as `ROUND.CLUSTER:BATCH`; the chain in hex; the first cluster without a certificate |
//! | `after ID ROUND` | – | the chain after that round |
//! | `outcomes ID ROUND CLUSTER` | – | what the requests of that block came to |
//! | `rounds CLUSTERS CLIENTS` | rounds begin that no replica keeps; `alone` names them in the last five questions | `made` |
//! | `keep CLUSTER ROUND BATCH` | they keep a certificate of one Commit | their answer |
//! | `run` | they execute the next round | their answer |
//!
//! Answers are written as Rust writes them; of a digest the first four bytes, and of an item the kind, the slot, round or view, and the
//! number of receivers. A message with a misfit isn't heard, and the answer is the misfit. `settle` goes over all replicas by rising id, again
//! and again: each hears the oldest (or newest) of its mail, or else takes the first that would make an entry of Batch, Emit, Execute and
//! Checkpoint. Where no replica had an event each is nudged, and where none proposed the fabric is settled. A timeout comes only by hand.
//!
//! A line that is none of these, or breaks a condition of the call, is answered `unreadable`.
#![tactic(auto)]

mod answers;
mod declared;
mod desk;
mod fabric;
mod looking;
mod messages;
mod node;
mod rounds;
mod words;

use desk::Desk;
use std::io;

fn main(rt: HostRuntime) -> io::Result<()> {
    let mut desk = Desk::new(rt.alloc())?;
    answer_lines(rt, &mut desk)
}

/// Answers the lines of standard input, one after another.
fn answer_lines(rt: HostRuntime, desk: &mut Desk) -> io::Result<()> {
    for line in rt.lines(rt.alloc()) {
        let line = line?;
        if line.is_empty() || line.starts_with('#') {
            println!(rt; "{line}")?;
        } else {
            let answer = desk.answer(line.as_str())?;
            println!(rt; "{line} => {answer}")?;
        }
    }
    Ok(())
}
