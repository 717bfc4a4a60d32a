//! How large a document is with its aliases written out, counted while it is composed: a number for each
//! node, in the caller's memory, and no document.
#![tactic(auto)]

mod counted;
pub mod laws;
mod sizes;

pub use counted::{Counted, deed_of};
pub use sizes::sizes_t;
