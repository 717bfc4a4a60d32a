//! The loader: documents of YAML, composed of the events of a parser.
#![tactic(auto)]

mod anchors;
mod composed_events;
mod composer;
mod context;
mod documents;
mod event_composer;
mod half_document;
mod ids;
pub mod laws;
mod load;
mod load_partial;
mod placed_events;
mod places;
mod push;
mod refusal;
mod stack;
mod written;

pub use composed_events::{yaml_parser_composed_events, yaml_parser_composed_events_t};
pub use documents::{yaml_parser_documents, yaml_parser_documents_t};
pub use event_composer::event_composer_t;
pub use load::yaml_parser_load;
pub use load_partial::{yaml_parser_load_partial, yaml_partial_t};
pub use placed_events::{yaml_parser_placed_events, yaml_parser_placed_events_t};
pub use places::{yaml_place_t, yaml_role_t};
pub use push::yaml_push_loader_t;
pub use written::{yaml_written_node_t, yaml_written_t};
