//! What the clients of a script sign.
ghost use Rattle.std.specs.Prelude.{◌≡◌, [], IfOk, IsTrue, map};
ghost use Rattle.std.specs.List.{list_all};
ghost use Rattle.fab_rules.specs.Format.{request_fits};
ghost use Rattle.script_keys.specs.Requests.{asked, asked_content};

use fab_base::{Bytes, NoMemory, Rows};
use fault_script::Wish;
use msg_spell::put_request_content;
use std::alloc::Global;

/// The content that the client of a request signs. It fails only where memory is refused.
fn asked_content(alloc: Global, wish: &Wish) -> Result<Bytes, NoMemory>
    requires { IsTrue (request_fits (asked wish.now [])) }
    ensures { IfOk result (λ content. content ≡ asked_content wish.now) }
{
    let request = wish.request(alloc)?;
    let mut content = Vec::new(alloc);
    let put = put_request_content(&mut content, &request);
    drop(request);
    put?;
    Ok(Bytes::from_vec(content))
}

/// The contents that the clients of these requests sign, in their order. It fails only where memory is refused.
pub(crate) fn asked_contents(alloc: Global, wishes: &[Wish]) -> Result<Rows<Bytes>, NoMemory>
    requires { IsTrue (list_all (λ wish. request_fits (asked wish [])) wishes.now) }
    ensures { IfOk result (λ contents. contents ≡ map asked_content wishes.now) }
{
    let mut contents = Rows::new(alloc);
    for wish in wishes {
        contents.push(asked_content(alloc, wish)?)?;
    }
    Ok(contents)
}
