//! Laws of the definition alone: what every reader of it keeps. It has no code: see specs/ and
//! proofs/.
#![tactic(auto)]
