//! The calls for C: a module for each header of `bindings/c/include/pokhvizi`, which says what a caller does,
//! and the facts of tags.
#![tactic(auto)]

pub mod compose;
pub mod steps;
pub mod tags;
