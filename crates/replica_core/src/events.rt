//! The events of a replica.
use bft_msg::Shaped;
use fab_base::Bytes;

/// What may happen to a replica.
#[derive(Debug, Drop)]
pub enum Event {
    /// A message is heard, which is shaped for the replica's members.
    Hear(Shaped),
    /// The replica may propose a batch.
    Batch,
    /// It may propose one that isn't full.
    Nudge,
    /// The first item of the outbox is sent.
    Emit {
        /// The signature of [`draft`](crate::Core::draft), where the replica itself signs the item. Otherwise it isn't looked at.
        sig: Bytes,
    },
    /// The next round may be executed.
    Execute,
    /// A Checkpoint may be due, or the low mark may move.
    Checkpoint,
    /// The replica waited long enough: a view may be asked for, or a certificate of another cluster reported as missing.
    Timeout,
}

/// The events that may come at any time: of each it can be asked whether it would do anything.
#[derive(Clone, Copy, Debug, Drop, PartialEq, Eq)]
pub enum Mover {
    /// [`Event::Batch`].
    Batch,
    /// [`Event::Nudge`].
    Nudge,
    /// [`Event::Emit`].
    Emit,
    /// [`Event::Execute`].
    Execute,
    /// [`Event::Checkpoint`].
    Checkpoint,
    /// [`Event::Timeout`].
    Timeout,
}
