//! The version sheet: its numbers, and what objects and the closing section test by them.
//!
//! A sheet is a slice of 58 numbers of 16 bits (docs/FORMAT.md, "The version sheet"). It need not
//! be usable here: a place past its end counts as absent. In the Rust they are the tags and
//! constants of `VersionTable` (src/tables.rs), in maps by name.
#![tactic(auto)]

pub mod names;
pub mod numbers;
pub mod tests;
