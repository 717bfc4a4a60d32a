//! The data types of libyaml's event parser: marks, directives, tokens, events, errors, sources of tokens.
#![tactic(auto)]

pub mod constructors;
pub mod directive;
pub mod enums;
pub mod event;
mod fault;
pub mod laws;
mod list_source;
pub mod mark;
mod message;
pub mod refusal;
mod scanner;
mod scanner_source;
mod source;
pub mod token;
mod token_constructors;
pub mod utf8;
mod words;

pub use constructors::{
    yaml_alias_event_initialize, yaml_document_end_event_initialize,
    yaml_document_start_event_initialize, yaml_event_delete, yaml_mapping_end_event_initialize,
    yaml_mapping_start_event_initialize, yaml_scalar_event_initialize,
    yaml_sequence_end_event_initialize, yaml_sequence_start_event_initialize,
    yaml_stream_end_event_initialize, yaml_stream_start_event_initialize, yaml_token_delete,
};
pub use directive::{yaml_tag_directive_t, yaml_version_directive_t};
pub use enums::{
    yaml_break_t, yaml_encoding_t, yaml_error_type_t, yaml_event_type_t, yaml_mapping_style_t,
    yaml_node_type_t, yaml_parser_state_t, yaml_scalar_style_t, yaml_sequence_style_t,
    yaml_token_type_t,
};
pub use event::{
    unnamed_yaml_event_t_data, unnamed_yaml_event_t_data_alias,
    unnamed_yaml_event_t_data_document_end, unnamed_yaml_event_t_data_document_start,
    unnamed_yaml_event_t_data_mapping_start, unnamed_yaml_event_t_data_scalar,
    unnamed_yaml_event_t_data_sequence_start, unnamed_yaml_event_t_data_stream_start, yaml_event_t,
};
pub use fault::{MEMORY_FAULT, NO_FAULT, yaml_parser_t_prefix, yaml_source_fault_t};
pub use list_source::yaml_list_source_t;
pub use mark::{ZERO_MARK, yaml_mark_t};
pub use refusal::yaml_refusal_t;
pub use scanner::yaml_scanner_t;
pub use scanner_source::yaml_scanner_source_t;
pub use source::yaml_token_source_t;
pub use token::{
    unnamed_yaml_token_t_data, unnamed_yaml_token_t_data_alias, unnamed_yaml_token_t_data_anchor,
    unnamed_yaml_token_t_data_scalar, unnamed_yaml_token_t_data_stream_start,
    unnamed_yaml_token_t_data_tag, unnamed_yaml_token_t_data_tag_directive,
    unnamed_yaml_token_t_data_version_directive, yaml_token_t,
};
pub use words::yaml_error_words;
