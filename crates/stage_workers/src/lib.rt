//! Workers that look for something to do, each in a thread of its own, until they are idle (ours).
//!
//! - A [`Crew`] is what the workers share, and says what one look of one of them does. What a worker owns is its hand, and stands in a [`Post`].
//! - [`drive`] lets each worker look in its thread until it is idle, has no memory, or has looked often enough, and returns when all have stopped. It
//!   notes beside each hand what its looks came to, a [`Look`], and answers the worst of them.
//! - Each look passes a [`Gate`] first, by which a test sees or holds workers; [`NoGate`] holds nobody.
//! - A look that finds nothing may wait a while before it answers `Idle`, by a [`Patience`]: a worker that left at its first empty moment would come
//!   back with the next call of [`drive`] alone, which starts all threads anew.
//!
//! A caller, whose crew is a `Pair` of workers that do nothing but pass the gate:
//!
//! ```
//! let mut posts = [
//!     Post { hand: Side::First, said: Look::Idle },
//!     Post { hand: Side::Second, said: Look::Idle },
//! ];
//! drive(rt, &Pair, &mut posts, 1, &meeting);
//! ```
//!
//! A contract sees of a call what each worker's looks came to and that its hand still fits the crew and follows the one before; what the workers did
//! to what they share is said by what the hands know of it, as the passes of a turn do. Nothing is said of progress: not that a worker is ever
//! given the processor, nor that the call returns where a look doesn't.
//!
//! The modules: `crew`, `gate` and `look` are what a caller names, `driving` has `drive` and how one worker looks on, `patience` how long a look
//! waits.
#![tactic(auto)]

mod crew;
mod driving;
mod gate;
mod look;
mod patience;

pub use crew::Crew;
pub use driving::drive;
pub use gate::{Gate, NoGate};
pub use look::{Look, Post};
pub use patience::{MOST_TRIES, Patience};
