//! Events within bounds on the nodes of each document, also with its aliases written out.
#![tactic(auto)]

mod bounded_composer;
mod bounded_events;
pub mod laws;

pub use bounded_composer::bounded_composer_t;
pub use bounded_events::{
    yaml_node_bounds_t, yaml_parser_bounded_events, yaml_parser_bounded_events_t,
};
