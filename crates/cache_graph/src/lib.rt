//! The entry point in Rattle: the object graph of a code-cache payload, in tables that the caller
//! lends.
#![tactic(auto)]

pub mod parse;
