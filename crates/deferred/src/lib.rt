//! Deferred entries of legacy closing sections (docs/FORMAT.md, "Deferred entries").
#![tactic(auto)]

pub mod entry;
