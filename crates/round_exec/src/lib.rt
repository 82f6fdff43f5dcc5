//! The rounds of all clusters (GeoBFT): commit certificates are kept, and a round that has one of each cluster is executed.
//!
//! - [`rounds`] makes a [`Rounds`] in which nothing is kept and nothing executed.
//! - [`Rounds::keep`] takes a certificate. Of each round and cluster the first stays, and its answer says what became of a later one.
//! - [`Rounds::execute`] executes the next round where no certificate is missing: a block of each cluster, in their order, is applied to
//!   the sequential table and joins the ledger. Call it until it answers [`Ran::NotYet`], which names the first cluster that is missing.
//! - [`Rounds::missing`] and [`Rounds::knows_others`] tell what is there of a round; [`Rounds::cert`] gives a certificate, [`Rounds::certs`]
//!   copies of those of a cluster, and [`Rounds::answer`] says what one would be answered.
//! - [`Rounds::ledger`], [`Rounds::executed`], [`Rounds::next`], [`Rounds::block`], [`Rounds::outcomes`], [`Rounds::chain`] and [`Rounds::chain_at`] read
//!   what was executed. None of the calls that only read takes memory, or longer for a longer ledger.
//!
//! All memory of a round is taken before anything changes, so that a round is executed whole or not at all.
//!
//! Contracts see a [`Rounds`] as a `Book` (`specs/Book`), whose rounds and whose words are those of the machine of a replica
//! (`fab_machine`, `Rounds`): this crate defines none of its own.
//!
//! The modules: `book` has the type and its calls, `making` makes one, `certificates` keeps the certificates (found by `place`),
//! `gathering` makes the blocks of a round, `rising` orders certificates by their rounds, `executed` holds the ledger and what its blocks came to, `applying` applies them, and `ran` is
//! the answer.
#![tactic(auto)]

mod applying;
mod book;
mod certificates;
mod executed;
mod gathering;
mod making;
mod place;
mod ran;
mod rising;

pub use book::Rounds;
pub use fab_base::NoMemory;
pub use making::rounds;
pub use ran::Ran;
