//! Events, documents and errors as lines of text.
#![tactic(auto)]

mod document_text;
mod escape;
mod event_line;
mod fault_text;
mod field_text;
mod marks;
mod node_start;
mod refusal;

pub use document_text::write_document;
pub use event_line::{append_event, write_event, write_line};
pub use fault_text::write_fault;
pub use refusal::line_refusal_t;
