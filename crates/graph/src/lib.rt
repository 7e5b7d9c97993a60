//! The walk of a whole payload: the top object, the closing section, and the padding after it.
#![tactic(auto)]

pub mod closing;
pub mod padding;
pub mod walk;
