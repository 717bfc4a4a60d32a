//! An automaton that composes documents without texts, nodes and memory. It takes events by their kinds, with
//! one number for what it has to know of their anchors, and returns what to do to the document. Its stack is
//! the caller's, and so are all nodes and texts.
#![tactic(auto)]

mod collection;
mod composer;
mod deed;
mod records;

pub use composer::{composer_t, event_kind};
pub use deed::Deed;
pub use records::{open_t, place_t};
