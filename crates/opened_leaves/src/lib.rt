//! Objects whose map is a leaf, opened without the readers of every reference.
#![tactic(auto)]

pub mod opening;
