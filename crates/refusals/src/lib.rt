//! Why a call is refused, and the number that each refusal is answered with.
#![tactic(auto)]

pub mod refusal;
