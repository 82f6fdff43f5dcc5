//! The audit of a run, and how it ended.
//!
//! [`audit`] goes through what each correct replica heard and finds the first thing that nobody who is correct can have made; [`end_of`]
//! says how the run ended. Both look at the transcript alone, whose traces say who was faulty. The words are those of `run_worlds`.
#![tactic(auto)]

mod asking;
mod auditing;
mod content_sets;
mod cores;
mod correct;
mod counting;
mod effects;
mod ending;
mod makers;
mod meetings;
mod settling;
mod signers;
mod stops;

pub use auditing::audit;
pub use ending::end_of;
