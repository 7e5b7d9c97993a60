//! What the top object of filled tables keeps: which objects it reaches, and their bytes.
#![tactic(auto)]

pub mod bytes;
pub mod keep;
pub mod marks;
pub mod sweep;
pub mod walk;
