//! YAML's parser and documents, under the names of `unsafe-libyaml`.
//!
//! You only name this crate: it re-exports the crates below it.
#![tactic(auto)]

pub mod laws;
mod load_all;
mod parse_all;

pub use libyaml_documents::laws as document_laws;
pub use libyaml_documents::unnamed_yaml_node_t_data;
pub use libyaml_documents::unnamed_yaml_node_t_data_mapping;
pub use libyaml_documents::unnamed_yaml_node_t_data_scalar;
pub use libyaml_documents::unnamed_yaml_node_t_data_sequence;
pub use libyaml_documents::yaml_alias_data_t;
pub use libyaml_documents::yaml_document_add_mapping;
pub use libyaml_documents::yaml_document_add_scalar;
pub use libyaml_documents::yaml_document_add_sequence;
pub use libyaml_documents::yaml_document_append_mapping_pair;
pub use libyaml_documents::yaml_document_append_sequence_item;
pub use libyaml_documents::yaml_document_delete;
pub use libyaml_documents::yaml_document_get_node;
pub use libyaml_documents::yaml_document_get_root_node;
pub use libyaml_documents::yaml_document_initialize;
pub use libyaml_documents::yaml_document_t;
pub use libyaml_documents::yaml_node_item_t;
pub use libyaml_documents::yaml_node_items_t;
pub use libyaml_documents::yaml_node_pair_t;
pub use libyaml_documents::yaml_node_pairs_t;
pub use libyaml_documents::yaml_node_t;
pub use libyaml_events::MEMORY_FAULT;
pub use libyaml_events::NO_FAULT;
pub use libyaml_events::TokenTypes;
pub use libyaml_events::yaml_list_source_t;
pub use libyaml_events::yaml_named_error_t;
pub use libyaml_events::yaml_parser_between_documents;
pub use libyaml_events::yaml_parser_delete;
pub use libyaml_events::yaml_parser_initialize;
pub use libyaml_events::yaml_parser_parse;
pub use libyaml_events::yaml_parser_parse_into;
pub use libyaml_events::yaml_parser_parse_named;
pub use libyaml_events::yaml_parser_set_max_entries;
pub use libyaml_events::yaml_parser_t;
pub use libyaml_events::yaml_parser_t_prefix;
pub use libyaml_events::yaml_push_parser_t;
pub use libyaml_events::yaml_source_fault_t;
pub use libyaml_events::yaml_token_source_t;
pub use libyaml_graphs::laws as graph_laws;
pub use libyaml_loader::event_composer_t;
pub use libyaml_loader::laws as loader_laws;
pub use libyaml_loader::yaml_parser_composed_events;
pub use libyaml_loader::yaml_parser_composed_events_t;
pub use libyaml_loader::yaml_parser_documents;
pub use libyaml_loader::yaml_parser_documents_t;
pub use libyaml_loader::yaml_parser_load;
pub use libyaml_loader::yaml_parser_load_partial;
pub use libyaml_loader::yaml_parser_placed_events;
pub use libyaml_loader::yaml_parser_placed_events_t;
pub use libyaml_loader::yaml_partial_t;
pub use libyaml_loader::yaml_place_t;
pub use libyaml_loader::yaml_push_loader_t;
pub use libyaml_loader::yaml_role_t;
pub use libyaml_loader::yaml_written_node_t;
pub use libyaml_loader::yaml_written_t;
pub use libyaml_types::ZERO_MARK;
pub use libyaml_types::laws as type_laws;
pub use libyaml_types::unnamed_yaml_event_t_data;
pub use libyaml_types::unnamed_yaml_event_t_data_alias;
pub use libyaml_types::unnamed_yaml_event_t_data_document_end;
pub use libyaml_types::unnamed_yaml_event_t_data_document_start;
pub use libyaml_types::unnamed_yaml_event_t_data_mapping_start;
pub use libyaml_types::unnamed_yaml_event_t_data_scalar;
pub use libyaml_types::unnamed_yaml_event_t_data_sequence_start;
pub use libyaml_types::unnamed_yaml_event_t_data_stream_start;
pub use libyaml_types::unnamed_yaml_token_t_data;
pub use libyaml_types::unnamed_yaml_token_t_data_alias;
pub use libyaml_types::unnamed_yaml_token_t_data_anchor;
pub use libyaml_types::unnamed_yaml_token_t_data_scalar;
pub use libyaml_types::unnamed_yaml_token_t_data_stream_start;
pub use libyaml_types::unnamed_yaml_token_t_data_tag;
pub use libyaml_types::unnamed_yaml_token_t_data_tag_directive;
pub use libyaml_types::unnamed_yaml_token_t_data_version_directive;
pub use libyaml_types::yaml_alias_event_initialize;
pub use libyaml_types::yaml_break_t;
pub use libyaml_types::yaml_document_end_event_initialize;
pub use libyaml_types::yaml_document_start_event_initialize;
pub use libyaml_types::yaml_encoding_t;
pub use libyaml_types::yaml_error_type_t;
pub use libyaml_types::yaml_error_words;
pub use libyaml_types::yaml_event_delete;
pub use libyaml_types::yaml_event_t;
pub use libyaml_types::yaml_event_type_t;
pub use libyaml_types::yaml_mapping_end_event_initialize;
pub use libyaml_types::yaml_mapping_start_event_initialize;
pub use libyaml_types::yaml_mapping_style_t;
pub use libyaml_types::yaml_mark_t;
pub use libyaml_types::yaml_node_type_t;
pub use libyaml_types::yaml_parser_state_t;
pub use libyaml_types::yaml_refusal_t;
pub use libyaml_types::yaml_scalar_event_initialize;
pub use libyaml_types::yaml_scalar_style_t;
pub use libyaml_types::yaml_scanner_source_t;
pub use libyaml_types::yaml_scanner_t;
pub use libyaml_types::yaml_sequence_end_event_initialize;
pub use libyaml_types::yaml_sequence_start_event_initialize;
pub use libyaml_types::yaml_sequence_style_t;
pub use libyaml_types::yaml_stream_end_event_initialize;
pub use libyaml_types::yaml_stream_start_event_initialize;
pub use libyaml_types::yaml_tag_directive_t;
pub use libyaml_types::yaml_token_delete;
pub use libyaml_types::yaml_token_t;
pub use libyaml_types::yaml_token_type_t;
pub use libyaml_types::yaml_version_directive_t;
pub use load_all::yaml_documents_t;
pub use load_all::yaml_parser_load_all;
pub use parse_all::yaml_parser_parse_all;
pub use parse_all::yaml_run_t;
// The variants of the enums, by their bare names.
pub use libyaml_types::enums::yaml_break_t::{
    YAML_ANY_BREAK, YAML_CR_BREAK, YAML_CRLN_BREAK, YAML_LN_BREAK,
};
pub use libyaml_types::enums::yaml_encoding_t::{
    YAML_ANY_ENCODING, YAML_UTF8_ENCODING, YAML_UTF16BE_ENCODING, YAML_UTF16LE_ENCODING,
};
pub use libyaml_types::enums::yaml_error_type_t::{
    YAML_COMPOSER_ERROR, YAML_EMITTER_ERROR, YAML_MEMORY_ERROR, YAML_NO_ERROR, YAML_PARSER_ERROR,
    YAML_READER_ERROR, YAML_SCANNER_ERROR, YAML_WRITER_ERROR,
};
pub use libyaml_types::enums::yaml_event_type_t::{
    YAML_ALIAS_EVENT, YAML_DOCUMENT_END_EVENT, YAML_DOCUMENT_START_EVENT, YAML_MAPPING_END_EVENT,
    YAML_MAPPING_START_EVENT, YAML_NO_EVENT, YAML_SCALAR_EVENT, YAML_SEQUENCE_END_EVENT,
    YAML_SEQUENCE_START_EVENT, YAML_STREAM_END_EVENT, YAML_STREAM_START_EVENT,
};
pub use libyaml_types::enums::yaml_mapping_style_t::{
    YAML_ANY_MAPPING_STYLE, YAML_BLOCK_MAPPING_STYLE, YAML_FLOW_MAPPING_STYLE,
};
pub use libyaml_types::enums::yaml_node_type_t::{
    YAML_MAPPING_NODE, YAML_NO_NODE, YAML_SCALAR_NODE, YAML_SEQUENCE_NODE,
};
pub use libyaml_types::enums::yaml_parser_state_t::{
    YAML_PARSE_BLOCK_MAPPING_FIRST_KEY_STATE, YAML_PARSE_BLOCK_MAPPING_KEY_STATE,
    YAML_PARSE_BLOCK_MAPPING_VALUE_STATE, YAML_PARSE_BLOCK_NODE_OR_INDENTLESS_SEQUENCE_STATE,
    YAML_PARSE_BLOCK_NODE_STATE, YAML_PARSE_BLOCK_SEQUENCE_ENTRY_STATE,
    YAML_PARSE_BLOCK_SEQUENCE_FIRST_ENTRY_STATE, YAML_PARSE_DOCUMENT_CONTENT_STATE,
    YAML_PARSE_DOCUMENT_END_STATE, YAML_PARSE_DOCUMENT_START_STATE, YAML_PARSE_END_STATE,
    YAML_PARSE_FLOW_MAPPING_EMPTY_VALUE_STATE, YAML_PARSE_FLOW_MAPPING_FIRST_KEY_STATE,
    YAML_PARSE_FLOW_MAPPING_KEY_STATE, YAML_PARSE_FLOW_MAPPING_VALUE_STATE,
    YAML_PARSE_FLOW_NODE_STATE, YAML_PARSE_FLOW_SEQUENCE_ENTRY_MAPPING_END_STATE,
    YAML_PARSE_FLOW_SEQUENCE_ENTRY_MAPPING_KEY_STATE,
    YAML_PARSE_FLOW_SEQUENCE_ENTRY_MAPPING_VALUE_STATE, YAML_PARSE_FLOW_SEQUENCE_ENTRY_STATE,
    YAML_PARSE_FLOW_SEQUENCE_FIRST_ENTRY_STATE, YAML_PARSE_IMPLICIT_DOCUMENT_START_STATE,
    YAML_PARSE_INDENTLESS_SEQUENCE_ENTRY_STATE, YAML_PARSE_STREAM_START_STATE,
};
pub use libyaml_types::enums::yaml_scalar_style_t::{
    YAML_ANY_SCALAR_STYLE, YAML_DOUBLE_QUOTED_SCALAR_STYLE, YAML_FOLDED_SCALAR_STYLE,
    YAML_LITERAL_SCALAR_STYLE, YAML_PLAIN_SCALAR_STYLE, YAML_SINGLE_QUOTED_SCALAR_STYLE,
};
pub use libyaml_types::enums::yaml_sequence_style_t::{
    YAML_ANY_SEQUENCE_STYLE, YAML_BLOCK_SEQUENCE_STYLE, YAML_FLOW_SEQUENCE_STYLE,
};
pub use libyaml_types::enums::yaml_token_type_t::{
    YAML_ALIAS_TOKEN, YAML_ANCHOR_TOKEN, YAML_BLOCK_END_TOKEN, YAML_BLOCK_ENTRY_TOKEN,
    YAML_BLOCK_MAPPING_START_TOKEN, YAML_BLOCK_SEQUENCE_START_TOKEN, YAML_DOCUMENT_END_TOKEN,
    YAML_DOCUMENT_START_TOKEN, YAML_FLOW_ENTRY_TOKEN, YAML_FLOW_MAPPING_END_TOKEN,
    YAML_FLOW_MAPPING_START_TOKEN, YAML_FLOW_SEQUENCE_END_TOKEN, YAML_FLOW_SEQUENCE_START_TOKEN,
    YAML_KEY_TOKEN, YAML_NO_TOKEN, YAML_SCALAR_TOKEN, YAML_STREAM_END_TOKEN,
    YAML_STREAM_START_TOKEN, YAML_TAG_DIRECTIVE_TOKEN, YAML_TAG_TOKEN, YAML_VALUE_TOKEN,
    YAML_VERSION_DIRECTIVE_TOKEN,
};
