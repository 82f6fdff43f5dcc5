//! One replica (PBFT, section 4, and GeoBFT): it orders batches in its cluster, goes on to another view where the primary fails, executes the
//! rounds of all clusters, tells them of certificates, and replies.
//!
//! - [`core`] makes a [`Core`], which has heard nothing.
//! - [`Core::step`] takes an [`Event`]: a message is heard, a batch may be proposed, an item is sent, a round may be executed, a
//!   Checkpoint may be due, the replica waited long enough. One [`Answer`] comes out, and whatever the replica has to say waits in its outbox.
//! - [`Core::first`] shows the item that [`Event::Emit`] sends next, and [`Core::draft`] what is to be signed of it.
//! - [`Core::moves`] asks beforehand whether an event would do anything, [`Core::rounds`] shows certificates and the ledger, and
//!   [`Core::low`] and [`Core::low_proof`] the low mark with its proof.
//!
//! `core_cases` has a replica hear a message and asks it what it does next so:
//!
//! ```text
//! let mut core = core(alloc, members.share()?, id)?;
//! let answer = core.step(Event::Hear(shaped))?;
//! if core.moves(Mover::Execute) {
//!     core.step(Event::Execute)?;
//! }
//! ```
//!
//! It is a value: it knows no clock, no socket, no thread and no bytes. A message that is heard is a [`Shaped`](bft_msg::Shaped) one; whether its
//! signatures hold was asked before.
//!
//! Contracts see a [`Core`] as a `Machine` (`specs/Cores`): each answer and each state is that of the machine of a replica (`fab_machine`,
//! `Step`), and the clause `honest` of [`Core::step`] says that every diary that was related to the state stays related. From that the
//! law of `fab_machine` has that the diary is an honest one, and `world_laws` that the ledgers of correct replicas agree.
//!
//! The modules: `replica` has the type and its calls, `making` makes one, `events` says what may happen. `parts` is what it is made of
//! (`view_order`, `round_exec`, `cluster_talk` and the outbox), `stepping` says which event goes where, and each event has a module of its
//! own: `hearing`, `proposing`, `emitting`, `executing`, `checkpointing`, `timing`. `taking` takes over what ordering brings about, `waiting`
//! changes what waits to be sent, and `sharing`, `pleading` and `entering` are what clusters tell each other: certificates, pleas for missing
//! ones, and what is owed where a view is entered.
#![tactic(auto)]

mod checkpointing;
mod emitting;
mod entering;
mod events;
mod executing;
mod hearing;
mod making;
mod parts;
mod pleading;
mod proposing;
mod replica;
mod sharing;
mod stepping;
mod taking;
mod timing;
mod waiting;

pub use events::{Event, Mover};
pub use fab_base::{Answer, Item, NoMemory};
pub use making::core;
pub use replica::Core;
