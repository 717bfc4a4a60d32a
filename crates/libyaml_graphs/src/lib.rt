//! The graph of a document, the loads of a run, and their laws.
//!
//! There is no code here: `libyaml_loader` loads documents, and its contracts cite these definitions.
#![tactic(auto)]

pub mod laws;
