//! Duplicate keys: two keys of one mapping that a document does not tell apart.
#![tactic(auto)]

mod classes;
mod duplicate;
mod repeat;

pub use duplicate::{duplicate_key, yaml_duplicate_key_t};
