//! Bytes, integers and raw ranges at a place of a payload, and small integers in words.
//!
//! A payload is a `&[u8]`, and a place in it counts bytes from its start. docs/FORMAT.md has the
//! rules: "Integers", "Raw data" and "Small integers". In the Rust these are `byte`, `peek`,
//! `putint` and `raw` of `Walker`, and `decode_smi_bytes` (src/serializer.rs).
#![tactic(auto)]

pub mod bytes;
pub mod putint;
pub mod smi;
