//! The index of legacy addresses, which the caller's scratch holds, and the search through it.
//!
//! It speeds up legacy back-references and decides none: each search answers as the plain one of
//! crate `alloc` does, whatever scratch held before.
#![tactic(auto)]

pub mod layout;
pub mod links;
pub mod resolve;
pub mod search;
