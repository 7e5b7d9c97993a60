//! The readers that call each other: a reference may open an object, and an object reads references
//! in turn.
#![tactic(auto)]

pub mod walk;
