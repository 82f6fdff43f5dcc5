//! Who receives a share: a cluster's certificate of a round goes to f + 1 members of every other cluster, which pass it on to the
//! rest of theirs (GeoBFT, global sharing).
//!
//! - The primary of a cluster sends the share of round r to `recipients(alloc, &members, other, r)`, for each other cluster: the
//!   members with the indexes r, r + 1, and so on to r + f, modulo the size n of that cluster, in this order.
//! - Whoever hears a share asks `is_recipient(&members, me, r)`, and if it is one, passes the share on to its own cluster.
//! - f is the greatest number of faulty members that the receiving cluster bears, so one of the receivers at least is correct, and
//!   passes it on: `receivers_law`. The receivers move on by one each round, to spread the work.
//!
//! Both calls need a cluster, or a replica, that the members have. `recipients` takes memory for its list; `is_recipient` takes none.
//! The definition is `recipients_of` in `specs/Receiving.antt`. Which message is shared, and whether it is genuine, isn't asked here.
#![tactic(auto)]

mod law;
mod receiving;

pub use fab_base::NoMemory;
pub use law::receivers_law;
pub use receiving::{is_recipient, recipients};
