//! The names of most tokens, in a buffer.
ghost use Rattle.std.specs.Prelude.{◌≡◌, ◌≤◌, ◌<◌};
ghost use Rattle.line_reading.specs.tokens.Buffered.{IsBufferedName};

use crate::bytes::begins_with;
use crate::token_name::NameRead;
use libyaml_types::yaml_token_type_t;

/// Returns the name of a type, which ends at an index.
#[inline(always)]
fn name_read(type_: yaml_token_type_t, end: usize) -> NameRead
    ensures { result ≡ record { type_ = type_; end = end } }
{
    NameRead { type_, end }
}

/// Reads the name that begins the bytes, and that a space follows; the end is 0 if it is none of these.
#[inline(always)]
pub(super) fn read_buffered_name(bytes: &[u8]) -> NameRead
    ensures within { result.end ≤ 20 }
    ensures some { 0 < result.end → IsBufferedName bytes.now result }
{
    if begins_with(bytes, b"SCALAR ") {
        return name_read(yaml_token_type_t::YAML_SCALAR_TOKEN, 6);
    }
    if begins_with(bytes, b"KEY ") {
        return name_read(yaml_token_type_t::YAML_KEY_TOKEN, 3);
    }
    if begins_with(bytes, b"VALUE ") {
        return name_read(yaml_token_type_t::YAML_VALUE_TOKEN, 5);
    }
    if begins_with(bytes, b"BLOCK-END ") {
        return name_read(yaml_token_type_t::YAML_BLOCK_END_TOKEN, 9);
    }
    if begins_with(bytes, b"BLOCK-MAPPING-START ") {
        return name_read(yaml_token_type_t::YAML_BLOCK_MAPPING_START_TOKEN, 19);
    }
    if begins_with(bytes, b"BLOCK-ENTRY ") {
        return name_read(yaml_token_type_t::YAML_BLOCK_ENTRY_TOKEN, 11);
    }
    if begins_with(bytes, b"FLOW-ENTRY ") {
        return name_read(yaml_token_type_t::YAML_FLOW_ENTRY_TOKEN, 10);
    }
    if begins_with(bytes, b"BLOCK-SEQUENCE-START ") {
        return name_read(yaml_token_type_t::YAML_BLOCK_SEQUENCE_START_TOKEN, 20);
    }
    if begins_with(bytes, b"FLOW-SEQUENCE-START ") {
        return name_read(yaml_token_type_t::YAML_FLOW_SEQUENCE_START_TOKEN, 19);
    }
    if begins_with(bytes, b"FLOW-SEQUENCE-END ") {
        return name_read(yaml_token_type_t::YAML_FLOW_SEQUENCE_END_TOKEN, 17);
    }
    if begins_with(bytes, b"FLOW-MAPPING-START ") {
        return name_read(yaml_token_type_t::YAML_FLOW_MAPPING_START_TOKEN, 18);
    }
    if begins_with(bytes, b"FLOW-MAPPING-END ") {
        return name_read(yaml_token_type_t::YAML_FLOW_MAPPING_END_TOKEN, 16);
    }
    if begins_with(bytes, b"DOCUMENT-START ") {
        return name_read(yaml_token_type_t::YAML_DOCUMENT_START_TOKEN, 14);
    }
    if begins_with(bytes, b"DOCUMENT-END ") {
        return name_read(yaml_token_type_t::YAML_DOCUMENT_END_TOKEN, 12);
    }
    if begins_with(bytes, b"TAG ") {
        return name_read(yaml_token_type_t::YAML_TAG_TOKEN, 3);
    }
    if begins_with(bytes, b"ANCHOR ") {
        return name_read(yaml_token_type_t::YAML_ANCHOR_TOKEN, 6);
    }
    if begins_with(bytes, b"ALIAS ") {
        return name_read(yaml_token_type_t::YAML_ALIAS_TOKEN, 5);
    }
    name_read(yaml_token_type_t::YAML_NO_TOKEN, 0)
}
