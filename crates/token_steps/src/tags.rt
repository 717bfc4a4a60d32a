//! The facts of tags and directives, from a document's handles in the caller's memory.
mod facts;
mod handles;
mod put;

pub use facts::{directive_fact, version_fact};
pub use handles::{handle_t, prefix_of, text_t};
pub use put::tag;
