//! The four tables as a call filled them, and what is asked of them: the bytes of a raw slot, the
//! number at one of them, and the range that covers a payload byte.
#![tactic(auto)]

pub mod covering;
pub mod filled;
pub mod nearest;
pub mod number;
pub mod range;
pub mod refused;
pub mod view;
