//! The program `yamltokens` except its `main`: what the words of its command line ask for.

mod host;
mod words;

pub use host::program;
pub use words::{Run, no_memory, refuse_words, run_words};
