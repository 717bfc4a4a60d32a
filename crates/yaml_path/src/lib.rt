//! Paths into a document: the node of an id, an item of a sequence, the value of a key, and the node or
//! the text at the end of a path.
//!
//! An id names a node of its document, from 1 on; id 1 is the root. No call takes memory. A call returns
//! `None` exactly if there is no such node, item, value or text.
#![tactic(auto)]

mod path;
mod step;

pub use path::{id_at, text_at};
pub use step::{as_str, item_at, node_of, value_at};
