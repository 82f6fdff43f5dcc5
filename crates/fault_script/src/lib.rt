//! The reader of scripts: from bytes to what they declare, or to the first bad line and its first cause.
//!
//! A script is a text of lines, each a few words between spaces: `cluster 4`, `client 1`, `request 0 put KEY VALUE`, `seed 7`. [`read`]
//! takes one apart. `fabric_run` has the script of a run from it, and tells a bad line by the program's exit:
//!
//! ```text
//! match read(alloc, bytes.as_slice()) {
//!     Ok(script) => Ok(script),
//!     Err(ScriptFault::Bad(bad)) => Err(Exit::BadScript(bad)),
//!     Err(ScriptFault::NoMemory) => Err(Exit::NoMemory),
//! }
//! ```
//!
//! Each step has a module, and a file of `specs/` that says what it means: `words` (the words of a line), `fields`
//! (numbers, keys, values), `settings` with `table` (numbers that a line may set, each once), `drafts` (what the lines so far declare),
//! `lines` (each kind of line) and `scripts` with `reading` (a whole script). `twists` has the type of a timeout, and those that lines of
//! later stages are read into, of replicas that fail and copies that are lost: no line is read into one of these yet.
//! Read the files of `specs/` in this order; a function of the reader answers the word of its own name there. `Checks` joins them: one
//! check after another, of which the first that fails names its cause.
//!
//! How much a script may declare is bounded by constants of `fab_base`: `MOST_MEMBERS` replicas of a cluster, `MOST_CLIENTS` clients,
//! `MOST_STAMPS` requests of each, keys of `LONGEST_KEY` bytes and values of `LONGEST_VALUE`; timeouts by [`MOST_TIMEOUTS`] of this crate; a
//! setting by `MOST_REQUESTS`, `MOST_SLOTS` and, of this crate, [`MOST_TURNS`] and [`MOST_PATIENCE`].
#![tactic(auto)]

mod drafts;
mod faults;
mod fields;
mod lines;
mod reading;
mod scripts;
mod settings;
mod table;
mod twists;
mod words;

pub use faults::{BadScript, ScriptFault, Why};
pub use reading::read;
pub use scripts::{MOST_TIMEOUTS, Script, Wish, Wishes};
pub use settings::{MOST_PATIENCE, MOST_TURNS};
pub use twists::{Fault, FaultLine, FaultLines, Loss, Losses, TimeoutLine, TimeoutLines};
