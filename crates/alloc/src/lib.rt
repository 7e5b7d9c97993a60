//! Legacy allocation (V8 up to 8.7): where objects are placed, and which object an address stands
//! for (docs/FORMAT.md, "Legacy allocation" and "Legacy back-references").
#![tactic(auto)]

pub mod fill;
pub mod legacy_alloc;
pub mod resolve;
