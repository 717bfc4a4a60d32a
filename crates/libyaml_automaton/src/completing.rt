//! Which types of token complete what was taken.
ghost use Rattle.std.specs.Prelude.{◌≡◌};
ghost use Rattle.libyaml_automaton.specs.Completing.{closer_of, closing_here, due_first, due_in_state};
ghost use Rattle.libyaml_automaton.specs.Numbers.{state_of};
ghost use Rattle.libyaml_automaton.specs.Purposes.{purpose_of};

use crate::automaton::Automaton;
use crate::next::Next;
use crate::reading::Reading;
use crate::stacks::state_of_number;
use libyaml_types::yaml_parser_state_t::*;
use libyaml_types::yaml_token_type_t::*;
use libyaml_types::{yaml_parser_state_t, yaml_token_type_t};

/// Returns what ends the collection or the stream in which such a state stands.
pub fn closing_token(state: yaml_parser_state_t) -> Option<yaml_token_type_t>
    ensures { result ≡ closer_of state }
{
    match state {
        YAML_PARSE_STREAM_START_STATE
        | YAML_PARSE_IMPLICIT_DOCUMENT_START_STATE
        | YAML_PARSE_DOCUMENT_START_STATE
        | YAML_PARSE_DOCUMENT_END_STATE => Some(YAML_STREAM_END_TOKEN),
        YAML_PARSE_BLOCK_SEQUENCE_ENTRY_STATE
        | YAML_PARSE_BLOCK_MAPPING_KEY_STATE
        | YAML_PARSE_BLOCK_MAPPING_VALUE_STATE => Some(YAML_BLOCK_END_TOKEN),
        YAML_PARSE_FLOW_SEQUENCE_FIRST_ENTRY_STATE
        | YAML_PARSE_FLOW_SEQUENCE_ENTRY_STATE
        | YAML_PARSE_FLOW_SEQUENCE_ENTRY_MAPPING_KEY_STATE
        | YAML_PARSE_FLOW_SEQUENCE_ENTRY_MAPPING_VALUE_STATE
        | YAML_PARSE_FLOW_SEQUENCE_ENTRY_MAPPING_END_STATE => Some(YAML_FLOW_SEQUENCE_END_TOKEN),
        YAML_PARSE_FLOW_MAPPING_FIRST_KEY_STATE
        | YAML_PARSE_FLOW_MAPPING_KEY_STATE
        | YAML_PARSE_FLOW_MAPPING_VALUE_STATE
        | YAML_PARSE_FLOW_MAPPING_EMPTY_VALUE_STATE => Some(YAML_FLOW_MAPPING_END_TOKEN),
        _ => None,
    }
}

/// Returns what has to come first in a state: the stream's start, or the node that is due.
fn due_token(state: yaml_parser_state_t) -> Option<yaml_token_type_t>
    ensures { result ≡ due_in_state state }
{
    match state {
        YAML_PARSE_STREAM_START_STATE => Some(YAML_STREAM_START_TOKEN),
        YAML_PARSE_DOCUMENT_CONTENT_STATE
        | YAML_PARSE_BLOCK_NODE_STATE
        | YAML_PARSE_BLOCK_NODE_OR_INDENTLESS_SEQUENCE_STATE
        | YAML_PARSE_FLOW_NODE_STATE
        | YAML_PARSE_FLOW_SEQUENCE_ENTRY_MAPPING_KEY_STATE => Some(YAML_SCALAR_TOKEN),
        _ => None,
    }
}

impl Automaton {
    /// Returns the first token of what completes the tokens taken so far, if one has to come before what is
    /// open is closed: the stream's start, a document's start, or a node.
    pub fn due_first(&self, read: &Reading) -> Option<yaml_token_type_t>
        ensures { result ≡ due_first (purpose_of read.now) (state_of self.now.state) }
    {
        match Next::of_number(read.next) {
            Next::AfterDirective => Some(YAML_DOCUMENT_START_TOKEN),
            Next::AfterProperties
            | Next::AfterBlockEntry
            | Next::AfterIndentlessEntry
            | Next::AfterKey
            | Next::AfterValue
            | Next::AfterFlowSequenceValue
            | Next::AfterFlowMappingKey
            | Next::AfterFlowMappingValue => Some(YAML_SCALAR_TOKEN),
            _ => due_token(state_of_number(self.state)),
        }
    }

    /// Returns what comes after that, and ends the collection or the stream whose state isn't on the stack.
    pub fn closing_here(&self, read: &Reading) -> Option<yaml_token_type_t>
        ensures { result ≡ closing_here (purpose_of read.now) (state_of self.now.state) }
    {
        match Next::of_number(read.next) {
            Next::AfterDirective => Some(YAML_STREAM_END_TOKEN),
            Next::AfterProperties | Next::AfterIndentlessEntry => None,
            Next::AfterBlockEntry | Next::AfterKey | Next::AfterValue => Some(YAML_BLOCK_END_TOKEN),
            Next::AfterFlowSequenceValue => Some(YAML_FLOW_SEQUENCE_END_TOKEN),
            Next::AfterFlowMappingKey | Next::AfterFlowMappingValue => Some(
                YAML_FLOW_MAPPING_END_TOKEN,
            ),
            _ => closing_token(state_of_number(self.state)),
        }
    }
}
