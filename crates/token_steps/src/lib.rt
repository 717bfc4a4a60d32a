//! The event parser a token at a time, for a caller who owns all memory and all texts: the call, the facts of
//! tags, and the laws of a run of calls.
//!
//! A call takes one token by its kind and marks, and puts at most one event's kind, flags and marks. Between
//! two calls there is one record of plain numbers and two stacks, in the caller's memory.
#![tactic(auto)]

mod asking;
mod did;
mod exact;
mod handed;
mod head;
pub mod laws;
mod out;
mod records;
mod steps;
mod tags;
mod tell;

pub use did::Did;
pub use libyaml_automaton::{Difference, TokenTypes};
pub use records::{step_event_t, step_fault_t, step_span_t};
pub use steps::{steps_t, token_kind};
pub use tags::{directive_fact, handle_t, prefix_of, tag, text_t, version_fact};
