//! Token lines as they are read.
#![tactic(auto)]

mod buffered;
pub mod bytes;
mod field;
pub mod laws;
mod line;
mod line_problem;
mod line_source;
mod marks;
mod number;
mod pieces;
mod search;
mod token_line;
mod token_name;

pub use line_problem::READ_FAILED;
pub use line_source::yaml_line_source_t;

/// A token line has at most this many bytes, its LF not counted.
pub const MAX_LINE: usize = 1_048_576;
