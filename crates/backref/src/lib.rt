//! Back-references: the ring of hot objects, and the two wire forms of legacy back-references.
#![tactic(auto)]

pub mod hot_ring;
pub mod legacy;
