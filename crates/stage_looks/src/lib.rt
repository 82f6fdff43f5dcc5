//! One look of each worker of a replica in threads, over any party (ours).
//!
//! Such a replica is a party under a turn (`party_turn`), and its workers look for what is theirs to do, each in a thread of its own
//! (`stage_workers`). What a worker owns is its hand. Here is each hand with its look, and in `specs/` what a hand keeps from look to look:
//!
//! - [`InputHand`] has a producer's pass of the stage queue and none of the turn. [`InputHand::take_in`] reads a copy that its caller popped;
//!   [`InputHand::look`] puts what was read. What it put and holds is what a replica with the reader's members and keys reads of what it took, and what it
//!   refused is what such a replica refuses (`Feeding`).
//! - [`OrderHand`] has the consumer's pass and a pass of the turn. What it heard, and then what it holds, is what it took, in order (`Ordering`).
//! - [`MoverHand`] has a pass of the turn, and does one thing of the replica's own accord, but for sending: Batch, Execute or Checkpoint. Where it is idle
//!   there was nothing to do (`Moving`). [`advance`] does such a thing once, for who has a pass and no hand: a Nudge, or a Timeout.
//! - [`OutputHand`] has a pass of the turn and an [`Outlet`] to each receiver. What was pushed on a link, and then what is in hand for its receiver, is the
//!   letters to it of all parcels that its acts put, in order (`Sending`). A [`Letter`] on the link of its sender is the copy that its parcel is on
//!   its way ([`letters_law`]).
//!
//! Each look makes one claim of the turn at most, and doesn't wait for it: where another worker has the turn, or a queue or link is full, it rests for a
//! moment and answers `Moved`. Where memory is refused it answers `NoMemory`; a copy, an item or a parcel is then in hand still, but for an item in
//! the midst of whose hearing the party was shut. Each hand speaks of what its own worker did, whoever acts between.
//!
//! Two callers, one that has a link to pop, and one that sends what there is:
//!
//! ```
//! let said = match hand.look(rt, &queue, &reader) {
//!     Look::Idle => match link.pop() {
//!         Some(letter) => hand.take_in(&queue, &reader, letter.into_copy(from)),
//!         None => Look::Idle,
//!     },
//!     said => said,
//! };
//!
//! let mut hand = OutputHand::new(alloc, act, outlets);
//! while hand.look(&turn) == Look::Moved {}
//! ```
//!
//! The modules: `items` and `letters` are what goes from worker to worker, `outlets` where letters go. `reading`, `ordering`, `moving` and `delivering` have
//! the hands; `hearing`, `doing` and `sending` have one act each, and `telling` what is read off its answer.
#![tactic(auto)]

mod delivering;
mod doing;
mod hearing;
mod items;
mod letters;
mod moving;
mod ordering;
mod outlets;
mod reading;
mod sending;
mod telling;

pub use delivering::OutputHand;
pub use doing::{Did, advance};
pub use items::Item;
pub use letters::{Letter, letter_law, letters_law};
pub use moving::MoverHand;
pub use ordering::OrderHand;
pub use outlets::Outlet;
pub use reading::InputHand;
