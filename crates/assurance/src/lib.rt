//! The guarantees (docs/GUARANTEES.md): their words, in specs/, and the theorems over the
//! definition, in proofs/. It has no code.
#![tactic(auto)]
