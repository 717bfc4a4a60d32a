//! The grammar of a YAML stream's tokens: trees, partial trees, their events and errors, runs, and the
//! laws that hold of them. It has no code.
#![tactic(auto)]

pub mod laws;
