//! From a source of tokens to events.
#![tactic(auto)]

mod automaton;
mod completing;
mod entries;
mod event_kinds;
mod handle_table;
mod iterate;
pub mod laws;
mod lookahead;
mod parse;
mod parser;
mod pending;
mod properties;
mod push;
mod states;
mod step;
mod texts;

pub use event_kinds::{is_event, is_stream_end, no_event};
pub use libyaml_automaton::TokenTypes;
pub use parse::{
    yaml_named_error_t, yaml_parser_parse, yaml_parser_parse_into, yaml_parser_parse_named,
};
pub use parser::{
    yaml_parser_between_documents, yaml_parser_delete, yaml_parser_initialize,
    yaml_parser_set_max_entries, yaml_parser_t,
};
pub use push::yaml_push_parser_t;
// Where tokens come from, and what an error says.
pub use libyaml_types::{
    MEMORY_FAULT, NO_FAULT, yaml_list_source_t, yaml_parser_t_prefix, yaml_source_fault_t,
    yaml_token_source_t,
};
// The tokens, events and other types of the calls.
pub use libyaml_types::{
    ZERO_MARK, unnamed_yaml_token_t_data, unnamed_yaml_token_t_data_alias,
    unnamed_yaml_token_t_data_anchor, unnamed_yaml_token_t_data_scalar,
    unnamed_yaml_token_t_data_stream_start, unnamed_yaml_token_t_data_tag,
    unnamed_yaml_token_t_data_tag_directive, unnamed_yaml_token_t_data_version_directive,
    yaml_error_type_t, yaml_event_t, yaml_event_type_t, yaml_mark_t, yaml_node_type_t,
    yaml_token_t,
};
