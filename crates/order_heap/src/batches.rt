//! Requests, and what they come to.
ghost use Rattle.std.specs.Prelude.{◌≡◌, length, nat_lt};
ghost use Rattle.std.specs.List.{list_all};

use fab_base::{Bytes, ClientId, Members, NoMemory, Op, Outcome, Outcomes, Reply, Request, Who};
use std::alloc::Global;

/// The request of this stamp of the one client: it reads a key.
pub(crate) fn request(alloc: Global, stamp: u32) -> Result<Request, NoMemory> {
    Ok(Request {
        client: ClientId { number: 0 },
        stamp,
        op: Op::Get {
            key: Bytes::from_vec(b"key".to_vec(alloc)?),
        },
        sig: Bytes::new(alloc),
    })
}

/// Whether the requests are of clients of the fabric.
pub(crate) fn are_clients(members: &Members, batch: &[Request]) -> bool
    ensures { result ≡ list_all (λ x. nat_lt x.client.number (length members.now.homes)) batch.now }
{
    batch
        .iter()
        .all(|request| members.has(Who::Client(request.client)))
}

/// What so many requests come to where each takes effect.
pub(crate) fn outcomes(alloc: Global, count: usize) -> Result<Outcomes, NoMemory> {
    let mut outcomes = Outcomes::new(alloc);
    for _ in 0..count {
        outcomes.push(Outcome::Done(Reply::Absent))?;
    }
    Ok(outcomes)
}
