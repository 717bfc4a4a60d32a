//! The steps by which a loader builds a document of events. They are for the crates of this
//! library: `unsafe_libyaml` passes none of them on.

pub use crate::document::{append_node, begin_document, end_document, set_end_mark};
pub use crate::loaded::{mapping_of_event, scalar_of_event, sequence_of_event};
