//! The parser and the loader of the Rust crate as definitions, and the laws that this repository's runs and
//! loads are theirs except for what docs/DIFFERENCES.md names. It has no code.
#![tactic(auto)]

pub mod laws;
pub mod vectors;
