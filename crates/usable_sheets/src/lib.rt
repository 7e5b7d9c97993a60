//! Whether a version sheet is usable, and whether it is plain.
#![tactic(auto)]

pub mod usable;
