//! A script's simulated run: from the script to the transcript. All replicas run in one thread; which step is next is fixed by the seed.
//! [`run_script`] runs it, and [`logs_of`] makes the logs that it starts with.
#![tactic(auto)]

mod logs;
mod running;

pub use logs::logs_of;
pub use running::run_script;
