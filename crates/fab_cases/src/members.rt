//! Questions to one roster: two clusters, of 4 members and of 1; three clients, at home in the clusters 2, 1 and 2; a window of 8
//! slots, a checkpoint each 4 rounds, batches of at most 2 requests.

use crate::words::{Answer, Unanswered, at, shown, small};
use fab_base::{ClientId, Members, NoMemory, ReplicaId, Who, members};
use std::alloc::Global;

/// Another handle to the roster.
fn roster(alloc: Global) -> Result<Members, NoMemory> {
    members(alloc, &[4, 1], &[2, 1, 2], 8, 4, 2)?.share()
}

/// `settings`, `size CLUSTER`, `home CLIENT`, `replica CLUSTER INDEX` and `client CLIENT` (whether they take part).
pub(crate) fn answer(alloc: Global, line: &str) -> Answer {
    let members = roster(alloc)?;
    match at(line, 1) {
        "settings" => settings(alloc, &members),
        "size" => size(alloc, &members, line),
        "home" => home(alloc, &members, line),
        "replica" => replica(alloc, &members, line),
        "client" => client(alloc, &members, line),
        _ => Err(Unanswered::Unreadable),
    }
}

/// The number of clusters and the three settings.
fn settings(alloc: Global, members: &Members) -> Answer {
    let clusters = members.clusters();
    let (window, interval, batch) = (members.window(), members.interval(), members.batch());
    Ok(format!(in alloc;
        "{clusters} clusters, window {window}, interval {interval}, batch {batch}"
    )?)
}

/// The size of a cluster that takes part.
fn size(alloc: Global, members: &Members, line: &str) -> Answer {
    let cluster = small(line, 2)?;
    if cluster == 0 || cluster > members.clusters() {
        return Err(Unanswered::Unreadable);
    }
    shown(alloc, &members.size(cluster))
}

/// The home of a client that takes part.
fn home(alloc: Global, members: &Members, line: &str) -> Answer {
    let client = ClientId {
        number: small(line, 2)?,
    };
    if !members.has(Who::Client(client)) {
        return Err(Unanswered::Unreadable);
    }
    shown(alloc, &members.home(client))
}

/// Whether a replica takes part.
fn replica(alloc: Global, members: &Members, line: &str) -> Answer {
    let replica = ReplicaId {
        cluster: small(line, 2)?,
        index: small(line, 3)?,
    };
    shown(alloc, &members.has(Who::Replica(replica)))
}

/// Whether a client takes part.
fn client(alloc: Global, members: &Members, line: &str) -> Answer {
    let client = ClientId {
        number: small(line, 2)?,
    };
    shown(alloc, &members.has(Who::Client(client)))
}
