//! Documents event by event, for a caller who owns all memory, all nodes and all texts: a look-up of anchors,
//! and the laws of a run of `libyaml_composer`'s calls.
#![tactic(auto)]

mod anchors;
pub mod laws;

pub use anchors::{anchor_t, carrier};
