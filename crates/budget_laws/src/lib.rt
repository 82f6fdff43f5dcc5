//! How much a plain run signs, sends and does, and so which keys and which limit of entries are enough for it to end done.
//!
//! `plain_laws` names the causes for which the run of a script without timeout lines doesn't end done: a used-up key, the limit of entries, two
//! batches of one digest. Here the first two are bounded by the slots that the primary opened ([`budget_law`]), whatever the script's patience.
//! `specs/Opened` and `specs/Budgets` have the statements. Where somebody timed out none of these bounds is promised: each view costs more.
#![tactic(auto)]

mod laws;

pub use laws::budget_law;
