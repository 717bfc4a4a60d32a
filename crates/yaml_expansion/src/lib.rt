//! How large a document is once its aliases are written out.
//!
//! A document stands for the tree that comes of copying a node at each place that names it. A short text may
//! stand for a huge tree, and one whose anchor contains its own alias for a tree without end.
#![tactic(auto)]

mod children;
mod error;
mod fault;
pub mod laws;
mod measure;
mod size;
mod walk;

pub use error::yaml_expansion_error_t;
pub use fault::bounded_size;
pub use measure::expanded_size;
