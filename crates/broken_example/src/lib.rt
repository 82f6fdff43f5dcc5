//! What a broken run looks like. No run of correct replicas shows one, so the program can't be brought there: the example is a law.
#![tactic(auto)]

mod examples;

pub use examples::broken_example;
