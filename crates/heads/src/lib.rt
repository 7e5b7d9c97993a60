//! What each head byte means under a version sheet (docs/FORMAT.md, "Head bytes").
//!
//! A reference begins with a head byte. Which kind of reference it is, and with which argument, is
//! asked by the names of the sheet in a fixed order: the first that lays hold of the byte has it.
//! `heads::decode` makes the 256 answers of a sheet once; `order::ORDER` is the order.
#![tactic(auto)]

pub mod heads;
pub mod kinds;
pub mod order;
