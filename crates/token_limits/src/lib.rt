//! A bound on depth for tokens, before a parser takes them: a source within it, and a call before each push.
#![tactic(auto)]

pub mod laws;
mod limiter;
mod source;

pub use limiter::token_limiter_t;
pub use source::yaml_limited_source_t;
