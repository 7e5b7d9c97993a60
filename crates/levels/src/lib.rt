//! Objects within objects as levels of one loop, so that reading them takes no call for each.
#![tactic(auto)]

pub mod level;
