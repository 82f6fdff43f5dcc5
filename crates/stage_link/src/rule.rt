//! The rule that every step of a stage queue keeps, and what each kind of step tells its caller.

ghost use Rattle.std.specs.Prelude.{◌≡◌, []};
ghost use Rattle.stage_link.specs.Producers.{consumer, producer, spent, with_put, with_producer, with_joined, TookStarts, TookAll, Took};
ghost use Rattle.stage_link.specs.Rule.{Kept};

use crate::known::Known;
use crossbeam_queue::protocol::{Join, Lesson, Outcome, Protocol, Split};

/// What is true of a stage queue between any two steps.
pub struct QueueRule;

impl<T> Protocol<T, Known<T>> for QueueRule {
    ghost holds = { Kept };

    ghost first = { consumer };
}

/// An item is put, or the queue is full.
pub struct Puts;

impl<T> Outcome<T, Known<T>> for Puts {
    ghost then = { λ v x w. w ≡ with_put v x };
}

impl<T> Lesson<T, Known<T>> for Puts {
    ghost fact = { λ v items. Unit {0} };
}

/// An item is taken, or the queue is empty.
pub struct Takes;

impl<T> Outcome<T, Known<T>> for Takes {
    ghost then = { Took };
}

impl<T> Lesson<T, Known<T>> for Takes {
    ghost fact = { λ v items. items ≡ [] → TookAll v };
}

/// A producer is split off the consumer, or joined into it.
pub struct Parting;

impl<T> Lesson<T, Known<T>> for Parting {
    ghost fact = { λ v items. TookStarts v };
}

impl<T> Split<Known<T>> for Parting {
    ghost left = { with_producer };

    ghost right = { λ v. producer v.made };
}

impl<T> Join<Known<T>> for Parting {
    ghost both = { with_joined };

    ghost spent = { spent };
}
