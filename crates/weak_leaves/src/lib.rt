//! Weak references to a leaf, read without the readers of every reference.
#![tactic(auto)]

pub mod weak;
