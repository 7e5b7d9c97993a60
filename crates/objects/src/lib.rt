//! What is read of an object beside references (docs/FORMAT.md, "Objects"): its head, its items,
//! what follows its map, and the resolves.
#![tactic(auto)]

pub mod head;
pub mod item;
pub mod map;
pub mod pending;
