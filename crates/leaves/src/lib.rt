//! The commonest references that hold no other, read without the readers of every reference.
#![tactic(auto)]

pub mod leaf;
