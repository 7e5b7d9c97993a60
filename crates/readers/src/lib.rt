//! The readers of references that read no other, and of what stands before one: integers, simple
//! references, prefixes.
//!
//! A reader takes the payload or a `Walker`, and a `State` by value; it answers a value and the
//! state after it, or a refusal with its place. Its contract says that it answers what the reader
//! of the same name in crates/definition does.
#![tactic(auto)]

pub mod ints;
pub mod prefix;
pub mod simple;
pub mod state;
pub mod walker;
