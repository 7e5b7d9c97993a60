//! The definition of the walk, from a payload's first byte to the outcome, and of the events of a
//! reading, in which the guarantees speak. It stands in specs/, and has no code but the law of its
//! examples.
#![tactic(auto)]

pub mod examples;
