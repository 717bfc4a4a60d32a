//! The names of tokens.
ghost use Rattle.std.specs.Prelude.{◌≡◌, Some, None, true, IfSome, IfNone, length, take};
ghost use Rattle.line_reading.specs.tokens.ReadAt.{IsNameRead};
ghost use Rattle.line_reading.specs.tokens.TokenLine.{token_of_line};
ghost use Rattle.line_reading.specs.tokens.TokenName.{token_type_of};

use crate::search::len_before;
use libyaml_types::yaml_token_type_t;

/// A token's type, and where its name ends in the line.
#[derive(Copy, Clone)]
pub(crate) struct NameRead {
    pub type_: yaml_token_type_t,
    pub end: usize,
}

/// Reads the name that begins a line, and that a space follows.
pub(crate) fn read_name(line: &[u8]) -> Option<NameRead>
    ensures some { IfSome result (λ read. IsNameRead line.now read) }
    ensures none { IfNone result (token_of_line line.now ≡ None) }
{
    let end = len_before(line, b' ');
    if end == line.len() {
        return None;
    }
    let type_ = read_token_type(&line[..end])?;
    Some(NameRead { type_, end })
}

/// Returns a token's type by its name in lines.
fn read_token_type(name: &[u8]) -> Option<yaml_token_type_t>
    ensures { result ≡ token_type_of name.now }
{
    if name == b"NO-TOKEN".as_slice() {
        return Some(yaml_token_type_t::YAML_NO_TOKEN);
    }
    if name == b"STREAM-START".as_slice() {
        return Some(yaml_token_type_t::YAML_STREAM_START_TOKEN);
    }
    if name == b"STREAM-END".as_slice() {
        return Some(yaml_token_type_t::YAML_STREAM_END_TOKEN);
    }
    if name == b"VERSION-DIRECTIVE".as_slice() {
        return Some(yaml_token_type_t::YAML_VERSION_DIRECTIVE_TOKEN);
    }
    if name == b"TAG-DIRECTIVE".as_slice() {
        return Some(yaml_token_type_t::YAML_TAG_DIRECTIVE_TOKEN);
    }
    if name == b"DOCUMENT-START".as_slice() {
        return Some(yaml_token_type_t::YAML_DOCUMENT_START_TOKEN);
    }
    if name == b"DOCUMENT-END".as_slice() {
        return Some(yaml_token_type_t::YAML_DOCUMENT_END_TOKEN);
    }
    if name == b"BLOCK-SEQUENCE-START".as_slice() {
        return Some(yaml_token_type_t::YAML_BLOCK_SEQUENCE_START_TOKEN);
    }
    if name == b"BLOCK-MAPPING-START".as_slice() {
        return Some(yaml_token_type_t::YAML_BLOCK_MAPPING_START_TOKEN);
    }
    if name == b"BLOCK-END".as_slice() {
        return Some(yaml_token_type_t::YAML_BLOCK_END_TOKEN);
    }
    if name == b"FLOW-SEQUENCE-START".as_slice() {
        return Some(yaml_token_type_t::YAML_FLOW_SEQUENCE_START_TOKEN);
    }
    if name == b"FLOW-SEQUENCE-END".as_slice() {
        return Some(yaml_token_type_t::YAML_FLOW_SEQUENCE_END_TOKEN);
    }
    if name == b"FLOW-MAPPING-START".as_slice() {
        return Some(yaml_token_type_t::YAML_FLOW_MAPPING_START_TOKEN);
    }
    if name == b"FLOW-MAPPING-END".as_slice() {
        return Some(yaml_token_type_t::YAML_FLOW_MAPPING_END_TOKEN);
    }
    if name == b"BLOCK-ENTRY".as_slice() {
        return Some(yaml_token_type_t::YAML_BLOCK_ENTRY_TOKEN);
    }
    if name == b"FLOW-ENTRY".as_slice() {
        return Some(yaml_token_type_t::YAML_FLOW_ENTRY_TOKEN);
    }
    if name == b"KEY".as_slice() {
        return Some(yaml_token_type_t::YAML_KEY_TOKEN);
    }
    if name == b"VALUE".as_slice() {
        return Some(yaml_token_type_t::YAML_VALUE_TOKEN);
    }
    if name == b"ALIAS".as_slice() {
        return Some(yaml_token_type_t::YAML_ALIAS_TOKEN);
    }
    if name == b"ANCHOR".as_slice() {
        return Some(yaml_token_type_t::YAML_ANCHOR_TOKEN);
    }
    if name == b"TAG".as_slice() {
        return Some(yaml_token_type_t::YAML_TAG_TOKEN);
    }
    if name == b"SCALAR".as_slice() {
        return Some(yaml_token_type_t::YAML_SCALAR_TOKEN);
    }
    None
}
