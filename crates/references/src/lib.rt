//! What the slots of filled tables refer to, and which slots an object has.
#![tactic(auto)]

pub mod found;
pub mod held;
pub mod reference;
pub mod slots_of;
