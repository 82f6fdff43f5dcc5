//! Copies, counted: those that replicas took, and those that were put to them. Timeouts, counted: those that came to something, and the
//! quiet moments that ended in them.
//!
//! A number above 2^64 − 1, more than any memory holds, is answered as memory that is refused.
ghost use Rattle.std.specs.Prelude.{◌≡◌, ◌+◌, length, IfOk, IsTrue};
ghost use Rattle.std.specs.List.{All, count_by, sum_by};
ghost use Rattle.fab_base.specs.Roster.{is_client};
ghost use Rattle.run_words.specs.Lawful.{is_timed_out, timed_out_in};
ghost use Rattle.fabric_audit.specs.Counts.{is_heard, taken_by, put_by, sent_by, copies_for};

use fab_base::{Members, NoMemory, Who};
use fault_script::Wish;
use run_words::{Entry, Moment, Parcel, Trace};

/// The sum.
pub(crate) fn plus(count: u64, more: u64) -> Result<u64, NoMemory>
    ensures { IfOk result (λ sum. sum ≡ count + more) }
{
    match count.checked_add(more) {
        Some(sum) => Ok(sum),
        None => Err(NoMemory),
    }
}

/// How many messages were heard.
fn heard(journal: &[Entry]) -> usize
    ensures { result ≡ count_by is_heard journal.now }
{
    let mut count = 0;
    for entry in journal {
        if let Entry::Heard(..) = entry {
            count += 1;
        }
    }
    count
}

/// How often a parcel comes to a member: as often as it passes, where it goes to one.
fn put(members: &Members, parcel: &Parcel) -> u64
    ensures { result ≡ put_by members.now parcel.now }
{
    if members.has(Who::Replica(parcel.to)) {
        parcel.passes as u64
    } else {
        0
    }
}

/// How many copies of these parcels come to members.
fn sent(members: &Members, parcels: &[Parcel]) -> Result<u64, NoMemory>
    ensures { IfOk result (λ count. count ≡ sum_by (put_by members.now) parcels.now) }
{
    let mut count = 0;
    for parcel in parcels {
        count = plus(count, put(members, parcel))?;
    }
    Ok(count)
}

/// How many timeouts came to something.
fn timed_out(journal: &[Entry]) -> usize
    ensures { result ≡ count_by is_timed_out journal.now }
{
    let mut count = 0;
    for entry in journal {
        if let Entry::TimedOut = entry {
            count += 1;
        }
    }
    count
}

/// How many copies these replicas took: a copy is heard or refused.
pub(crate) fn taken(traces: &[Trace]) -> Result<u64, NoMemory>
    ensures { IfOk result (λ count. count ≡ sum_by taken_by traces.now) }
{
    let mut count = 0;
    for trace in traces {
        let heard = heard(trace.journal.as_slice()) as u64;
        let refused = trace.refused.len() as u64;
        count = plus(count, plus(heard, refused)?)?;
    }
    Ok(count)
}

/// How many copies of the parcels of these replicas come to members.
pub(crate) fn sent_by_all(members: &Members, traces: &[Trace]) -> Result<u64, NoMemory>
    ensures { IfOk result (λ count. count ≡ sum_by (sent_by members.now) traces.now) }
{
    let mut count = 0;
    for trace in traces {
        count = plus(count, sent(members, trace.parcels.as_slice())?)?;
    }
    Ok(count)
}

/// How many copies of these requests there are: one for each replica of the home of each request's client. The clients are among the
/// members.
pub(crate) fn copies(members: &Members, requests: &[Wish]) -> Result<u64, NoMemory>
    requires { All (λ w. IsTrue (is_client members.now w.client)) requests.now }
    ensures { IfOk result (λ count. count ≡ sum_by (copies_for members.now) requests.now) }
{
    let mut count = 0;
    for wish in requests {
        let home = members.home(wish.client);
        count = plus(count, members.size(home) as u64)?;
    }
    Ok(count)
}

/// How many timeouts came to something at these replicas.
pub(crate) fn timed_out_at_all(traces: &[Trace]) -> Result<u64, NoMemory>
    ensures { IfOk result (λ count. count ≡ sum_by timed_out_in traces.now) }
{
    let mut count = 0;
    for trace in traces {
        count = plus(count, timed_out(trace.journal.as_slice()) as u64)?;
    }
    Ok(count)
}

/// How many of these quiet moments ended in timeouts.
pub(crate) fn timed(moments: &[Moment]) -> usize
    ensures { result ≡ count_by (λ x. x.timed) moments.now }
{
    let mut count = 0;
    for moment in moments {
        if moment.timed {
            count += 1;
        }
    }
    count
}

/// How many entries these replicas made.
pub(crate) fn entries(traces: &[Trace]) -> Result<u64, NoMemory>
    ensures { IfOk result (λ count. count ≡ sum_by (λ trace. length trace.journal) traces.now) }
{
    let mut count = 0;
    for trace in traces {
        count = plus(count, trace.journal.len() as u64)?;
    }
    Ok(count)
}
