//! The signed requests.
ghost use Rattle.std.specs.Prelude.{◌≡◌, ◌<◌, ◌≤◌, true, IfOk, IsTrue};
ghost use Rattle.fab_base.specs.Fields.{op_fits};
ghost use Rattle.fault_script.specs.Scripts.{keeps_limits};
ghost use Rattle.lms_tree.specs.declared.heights.Height.TheVariants.{H5};
ghost use Rattle.script_keys.specs.Keys.{client_keys_of};
ghost use Rattle.script_keys.specs.Requests.{request_by, requests_of};

use fab_base::{NoMemory, Request, Rows};
use fault_script::{Script, Wish};
use lms_tree::{Key, sign_leaf};
use msg_spell::put_request_content;
use std::alloc::Global;

/// What is asked for, signed with this key: the request of stamp t by leaf t − 1.
fn request_by(alloc: Global, key: &Key, wish: &Wish) -> Result<Request, NoMemory>
    requires height { key.now.height ≡ H5 }
    requires number { wish.now.client.number < 256 }
    requires stamp { (1 ≤ wish.now.stamp) × (wish.now.stamp ≤ 32) }
    requires op { IsTrue (op_fits wish.now.op) }
    ensures { IfOk result (λ request. request ≡ request_by key.now wish.now) }
{
    let mut request = wish.request(alloc)?;
    let mut content = Vec::new(alloc);
    put_request_content(&mut content, &request)?;
    request.sig = sign_leaf(alloc, key, wish.stamp - 1, &content)?;
    Ok(request)
}

/// The signed requests of a script, in its order: each bears the signature of its client's key by leaf stamp − 1. The keys are those of
/// the script's clients. It fails only where memory is refused.
pub fn signed_requests(
    alloc: Global,
    script: &Script,
    clients: &[Key],
) -> Result<Rows<Request>, NoMemory>
    requires limits { keeps_limits script.now ≡ true }
    requires clients { clients.now ≡ client_keys_of script.now }
    ensures { IfOk result (λ requests. requests ≡ requests_of script.now) }
{
    let mut requests = Rows::new(alloc);
    let wishes = script.requests.as_slice();
    for k in 0..wishes.len() {
        let wish = &wishes[k];
        requests.push(request_by(alloc, &clients[wish.client.number as usize], wish)?)?;
    }
    Ok(requests)
}
