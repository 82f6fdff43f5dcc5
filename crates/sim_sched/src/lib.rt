//! The one run of a script, in code: [`simulate`] drives any [`run_words::Party`] by the rules of a simulated run, and gives the
//! transcript that these rules fix.
//!
//! Before each event the run is over where the journals together have as many entries as the script allows. Else the steps that can be
//! made are counted: for each replica by id one for each copy on its way, in the order put, then a batch, a sending, an executing and
//! a Checkpoint, each where it would make an entry. The generator's next word picks one of them; it is found by walking the seats, and no
//! list of steps is ever made. Where there is none, it is a quiet moment: how many entries each journal has is noted, and each replica by
//! id is nudged. Where no nudge moves one, a unit of patience is used and each replica by id gets a timeout; where none is left, the run
//! has ended. Before each pick the script's timeouts are gone through, from the first: each that is due is given, and is used up.
//!
//! A parcel's bytes move from a party's answer to the copy on its way, and with it to the hearing; they are copied only where a parcel
//! passes more than once. A copy that a replica refuses is noted by its number, and is let go.
//!
//! Modules: `seats` has a replica's place in a run, `acting` the events at one seat (what a receiver makes of bytes is `copy_reader`'s),
//! `choosing` counts and finds steps, `putting` brings copies to their receivers, `stepping` makes one step, `lines` gives the script's
//! timeouts, `playing` has the rules and quiet moments (`rounds` how far a run came), `simulating` the call. What is said of seats is in `specs/`: a seat is seen as plain data
//! (`Seats`), and the seats of a run are what the fold of `run_words` has at each replica.
#![tactic(auto)]

mod acting;
mod choosing;
mod lines;
mod playing;
mod putting;
mod rounds;
mod seats;
mod simulating;
mod stepping;

pub use simulating::simulate;
