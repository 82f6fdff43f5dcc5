//! Parcels: what a replica sends, numbered receiver by receiver, and the parcels of a whole journal.
//!
//! - [`Numbers`] counts the parcels that were put to each receiver; [`Numbers::new`] is of none.
//! - [`prepare`] makes the parcels of what is to be sent, a copy for each receiver, while their last bytes are still open: all memory is taken
//!   there. [`Prepared::send`] writes these bytes, gives the parcels away and raises the numbers; it takes no memory and can't fail. So a
//!   signature can be made between the two, when nothing can be refused any more.
//! - [`parcels_of`] reads off a journal all parcels that its replica put: nobody needs to store them.
//! - [`ticked`] is the clock after a hearing, which gives each parcel its time.
//!
//! What is not sent leaves no trace: the numbers that follow a parcel are kept in its [`Prepared`], and take their place once it is sent.
//! Where a number or a clock is at the last value of a `u64`, that is answered as `NoMemory`, and never wraps.
//!
//! Contracts see [`Numbers`] as a list of receivers with their counts, and a [`Prepared`] as a `Draft` (`specs/Posting`). Journals and
//! parcels are those of `run_words`: that what is numbered here is what is put there is `numbered_is_put` in `proofs/Numbered`, and is
//! proved of a whole journal by the contract of [`parcels_of`].
//!
//! The modules: `numbering` has the numbers, `posting` makes and sends parcels, `tracing` makes those of a journal, and `clock` is the
//! clock.
#![tactic(auto)]

mod clock;
mod numbering;
mod posting;
mod tracing;

pub use clock::ticked;
pub use fab_base::NoMemory;
pub use numbering::Numbers;
pub use posting::{Prepared, prepare};
pub use tracing::parcels_of;
