//! That a turn may be shared by threads, and a pass handed to another, where the machine may be handed over. Nothing here is called.

use crate::lock::{Pass, Turn};
use crate::machine::Machine;

fn is_shared<T: Sync>(_it: &T) {}

fn is_moved<T: Send>(_it: &T) {}

/// A turn may be shared by threads.
pub(crate) fn turn_is_shared<M: Machine + Send>(turn: &Turn<M>) {
    is_shared(turn)
}

/// A turn may be handed to another thread.
pub(crate) fn turn_is_moved<M: Machine + Send>(turn: &Turn<M>) {
    is_moved(turn)
}

/// A pass may be handed to another thread.
pub(crate) fn pass_is_moved<M: Machine + Send>(pass: &Pass<M>) {
    is_moved(pass)
}
