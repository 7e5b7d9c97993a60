//! What a walk lists: references and slot values, and the four tables of records.
//!
//! docs/FORMAT.md, "The tables", has the fields of each record and the kinds of values.
#![tactic(auto)]

pub mod records;
pub mod values;
