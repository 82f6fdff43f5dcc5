//! What the histories of a threaded run say of the run (ours): laws over `run_words`, the turn and the stage queue.
//!
//! Each worker knows only what it did itself. These laws carry that to the end of a run, by counts and without an order in time between
//! workers or replicas:
//!
//! - [`seats_law`]: what one act adds to a worker's own entries, whoever acts between. The order worker has heard what it took, in its order; the
//!   output worker has been told just the parcels that its entries put; a worker whose act made no entry, after as many entries as there are in the
//!   end, has nothing more to do.
//! - [`taken_law`]: what a consumer took is, item for item, what it took of each producer. So what a replica heard is what its input workers read,
//!   but for what is still held between them.
//! - [`fleet_law`]: where each journal is one that its replica's machine makes, what was taken of each sender is a beginning of what it put, and
//!   Nudges and Timeouts were given at quiet moments alone, the transcript is lawful. Where beside that nothing is left, nothing moves and patience was
//!   used, it is settled. That a quiet moment is one of the transcript is had by counts too: it is the same question of what there was by then.
//! - [`fleet_example`]: what `fleet_law` asks can be met.
//!
//! They are cited by proofs, as the clause of a function that nobody needs to call:
//!
//! ```text
//! emits made first before after answer acted same_numbers mine : put_of m after.numbers after.seen ≡ put_of m before.numbers before.seen ++ told_parcels answer.told
//! lawful rules ends pauses left sane fed timely patient : Lawful rules (transcript_at rules ends pauses left)
//! ```
//!
//! The definitions: `Workers` has the kinds of entries, `Doings` what was heard and put under some seat numbers, `Seats` their laws; `Takings` is of the
//! queue's consumer; `Copies` is what a receiver makes of copies, `Ends` what each replica leaves behind, `Pauses` the quiet moments on the way, and
//! `Fleets` the laws of both; `Examples` has the least fleet.
#![tactic(auto)]

mod laws;

pub use laws::{fleet_example, fleet_law, seats_law, taken_law};
