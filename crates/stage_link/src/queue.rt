//! The stage queue and its passes.

use crate::known::Known;
use crate::rule::QueueRule;
use crossbeam_queue::{Pass, RuledArrayQueue};
use std::alloc::Global;

/// The right to put into a stage queue, or to take from it. One worker owns it. Contracts see what it knows (`known`).
pub type QueuePass<T> = Pass<T, Known<T>>;

/// A bounded queue between any number of producers and one consumer, which share it by reference. Contracts see its room (`room`).
#[derive(Drop)]
pub struct StageQueue<T> {
    pub(crate) inner: RuledArrayQueue<T, Known<T>, QueueRule, Global>,
}
