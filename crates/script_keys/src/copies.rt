//! The copies of requests that are on their way when a run begins.
ghost use Rattle.std.specs.Prelude.{◌≡◌, ◌<◌, ◌++◌, true, IfOk, OnOk, IsTrue, length};
ghost use Rattle.fab_base.specs.declared.messages.Message.{Message};
ghost use Rattle.fab_rules.specs.Format.{request_fits};
ghost use Rattle.fab_rules.specs.Spelling.{spelling_of};
ghost use Rattle.fault_script.specs.Scripts.{keeps_limits};
ghost use Rattle.script_keys.specs.Requests.{requests_of, receivers_of, pending_of, copies_to, copies_of};

use fab_base::{Bytes, Duplicate, Message, NoMemory, ReplicaId, Request, Rows, put_members};
use fault_script::Script;
use msg_spell::encode;
use run_words::{Origin, Pending};
use std::alloc::Global;

/// Copies with their receivers, in order.
pub type Copies = Rows<(ReplicaId, Pending)>;

/// Puts a copy for each receiver behind others.
fn put_copies(
    copies: &mut Copies,
    origin: Origin,
    number: u64,
    load: &Bytes,
    receivers: &[ReplicaId],
) -> Result<(), NoMemory>
    ensures { OnOk result (copies.new ≡ copies.old ++ copies_to (record { origin = origin; number = number; load = load.now }) receivers.now) }
{
    for to in receivers {
        let pending = Pending {
            origin,
            number,
            load: load.copy()?,
        };
        copies.push((*to, pending))?;
    }
    Ok(())
}

/// The bytes of a request.
fn load_of(alloc: Global, request: &Request) -> Result<Bytes, NoMemory>
    requires { IsTrue (request_fits request.now) }
    ensures { IfOk result (λ bytes. bytes ≡ spelling_of (Message.Request request.now)) }
{
    let message = Message::Request(request.duplicate()?);
    encode(alloc, &message)
}

/// The replicas of a client's home.
fn receivers_of(
    alloc: Global,
    script: &Script,
    request: &Request,
) -> Result<Rows<ReplicaId>, NoMemory>
    requires limits { keeps_limits script.now ≡ true }
    requires declared { request.now.client.number < length script.now.homes }
    ensures { IfOk result (λ receivers. receivers ≡ receivers_of script.now request.now) }
{
    let home = script.homes.as_slice()[request.client.number as usize];
    let size = script.sizes.as_slice()[home as usize - 1];
    let mut receivers = Rows::new(alloc);
    put_members(&mut receivers, home, size)?;
    Ok(receivers)
}

/// Puts the copies of the request at this place of the script behind others.
fn put_request(
    alloc: Global,
    copies: &mut Copies,
    script: &Script,
    place: u64,
    request: &Request,
) -> Result<(), NoMemory>
    requires limits { keeps_limits script.now ≡ true }
    requires declared { request.now.client.number < length script.now.homes }
    requires fits { IsTrue (request_fits request.now) }
    ensures { OnOk result (copies.new ≡ copies.old ++ copies_to (pending_of place request.now) (receivers_of script.now request.now)) }
{
    let receivers = receivers_of(alloc, script, request)?;
    let load = load_of(alloc, request)?;
    put_copies(
        copies,
        Origin::Client(request.client),
        place,
        &load,
        receivers.as_slice(),
    )
}

/// A copy of each signed request for each replica of its client's home, in the order of the script: what is on its way when a run begins.
/// The requests are the script's, signed. It fails only where memory is refused.
pub fn request_copies(
    alloc: Global,
    script: &Script,
    requests: &[Request],
) -> Result<Copies, NoMemory>
    requires limits { keeps_limits script.now ≡ true }
    requires requests { requests.now ≡ requests_of script.now }
    ensures { IfOk result (λ copies. copies ≡ copies_of script.now) }
{
    let mut copies = Rows::new(alloc);
    for k in 0..requests.len() {
        put_request(alloc, &mut copies, script, k as u64, &requests[k])?;
    }
    Ok(copies)
}
