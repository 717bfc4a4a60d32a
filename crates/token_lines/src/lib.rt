//! Tokens, events and documents as lines of text.
//!
//! You only name this crate: it re-exports the crates below it, for reading and for writing a line.
#![tactic(auto)]

pub mod command;
pub mod laws;
pub mod memory;
mod run;

pub use line_reading::{MAX_LINE, laws as reading_laws, yaml_line_source_t};
pub use line_writing::{line_refusal_t, write_document, write_event, write_fault};
pub use run::{Outcome, run_end_t, run_events, run_nodes, write_events, write_nodes};

/// A run reads at most this many tokens.
pub const MAX_TOKENS: u64 = 1_000_000;
