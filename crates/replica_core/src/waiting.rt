//! What waits to be sent.
ghost use Rattle.std.specs.Prelude.{◌≡◌, ◌++◌, OnOk};
ghost use Rattle.fab_machine.specs.Items.{stays, those_that_stay};

use crate::NoMemory;
use cluster_talk::Items;
use fab_base::{Item, Message};
use std::collections::VecDeque;

/// These items join the outbox.
pub(crate) fn put_all(outbox: &mut VecDeque<Item>, items: Items) -> Result<(), NoMemory>
    ensures { OnOk result (outbox.new.items ≡ outbox.old.items ++ items) }
{
    let mut more = VecDeque::from_vec(items.into_vec());
    let put = outbox.append(&mut more);
    drop(more);
    put
}

/// Proposals and votes leave the outbox: a view is left (PBFT, section 4.4). Takes no memory.
pub(crate) fn clear(outbox: &mut VecDeque<Item>)
    ensures { outbox.new.items ≡ those_that_stay outbox.old.items }
{
    outbox.retain(|item| stays(&item.message));
}

/// Whether a message stays where a view is left: proposals and votes are of a view.
fn stays(message: &Message) -> bool
    ensures { result ≡ stays message.now }
{
    !matches!(
        message,
        Message::PrePrepare(_) | Message::Prepare(_) | Message::Commit(_)
    )
}
