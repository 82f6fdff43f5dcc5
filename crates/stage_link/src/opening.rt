//! A stage queue is made.

ghost use Rattle.std.specs.Prelude.{◌≡◌, ◌<◌, IfOk};
ghost use Rattle.stage_link.specs.Producers.{consumer};
ghost use Rattle.stage_link.specs.Queues.{known, IsQueuePass};
ghost use Rattle.stage_link.specs.Queues.{room as room_of};

use crate::queue::{QueuePass, StageQueue};
use crossbeam_queue::RuledArrayQueue;
use std::alloc::{AllocError, Global};

/// Makes a queue with room for so many items, and gives the consumer's pass, which has taken nothing. It fails for want of memory alone.
pub fn stage_queue<T>(
    alloc: Global,
    room: usize,
) -> Result<(StageQueue<T>, QueuePass<T>), AllocError>
    requires { 0 < room }
    ensures pass { IfOk result (λ made. IsQueuePass made.0 made.1) }
    ensures consumer { IfOk result (λ made. known made.1 ≡ consumer) }
    ensures room { IfOk result (λ made. room_of made.0 ≡ room) }
{
    let (inner, pass) = RuledArrayQueue::ruled(alloc, room)?;
    Ok((StageQueue { inner }, pass))
}
