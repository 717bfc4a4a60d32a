//! Where libyaml does something else with the token at hand.
ghost use Rattle.std.specs.Prelude.{◌≡◌};
ghost use Rattle.libyaml_automaton.specs.Differing.{differs, differs_at, difference_number};
ghost use Rattle.libyaml_automaton.specs.Numbers.{flag, state_of};
ghost use Rattle.libyaml_automaton.specs.Purposes.{purpose_of};

use crate::automaton::Automaton;
use crate::next::Next;
use crate::reading::Reading;
use crate::stacks::state_of_number;
use libyaml_types::yaml_parser_state_t::*;
use libyaml_types::yaml_token_type_t;
use libyaml_types::yaml_token_type_t::*;

/// Where libyaml does something else with the token at hand (docs/DIFFERENCES.md).
#[derive(Copy, Clone)]
pub enum Difference {
    /// It does the same.
    Nowhere,
    /// After the KEY of a flow sequence's pair: there the token is lost.
    PairKey,
    /// Where a block mapping's KEY is due: there VALUE is an error.
    ValueFirst,
    /// After a document's explicit end: there an implicit document is an error.
    BareDocument,
}

impl Difference {
    /// Returns the number that C sees.
    #[inline]
    pub fn number(self) -> u8
        ensures { result ≡ difference_number self }
    {
        self as u8
    }
}

impl Automaton {
    /// Returns where libyaml does something else with a token of this kind, which is the next one.
    #[inline]
    pub fn differs(&self, read: &Reading, kind: yaml_token_type_t) -> Difference
        ensures { result ≡ differs (purpose_of read.now) (state_of self.now.state)
            (flag self.now.behind_document_end) kind }
    {
        match Next::of_number(read.next) {
            Next::AfterDirective
            | Next::AfterProperties
            | Next::AfterBlockEntry
            | Next::AfterIndentlessEntry
            | Next::AfterKey
            | Next::AfterValue
            | Next::AfterFlowSequenceValue
            | Next::AfterFlowMappingKey
            | Next::AfterFlowMappingValue => Difference::Nowhere,
            _ => self.differs_at_state(kind),
        }
    }

    #[inline]
    fn differs_at_state(&self, kind: yaml_token_type_t) -> Difference
        ensures { result ≡ differs_at (state_of self.now.state) (flag self.now.behind_document_end) kind }
    {
        match state_of_number(self.state) {
            YAML_PARSE_IMPLICIT_DOCUMENT_START_STATE => {
                if self.behind_document_end == 0 {
                    return Difference::Nowhere;
                }
                match kind {
                    YAML_STREAM_END_TOKEN
                    | YAML_VERSION_DIRECTIVE_TOKEN
                    | YAML_TAG_DIRECTIVE_TOKEN
                    | YAML_DOCUMENT_START_TOKEN
                    | YAML_DOCUMENT_END_TOKEN => Difference::Nowhere,
                    _ => Difference::BareDocument,
                }
            }
            YAML_PARSE_BLOCK_MAPPING_KEY_STATE => match kind {
                YAML_VALUE_TOKEN => Difference::ValueFirst,
                _ => Difference::Nowhere,
            },
            YAML_PARSE_FLOW_SEQUENCE_ENTRY_MAPPING_KEY_STATE => match kind {
                YAML_VALUE_TOKEN | YAML_FLOW_ENTRY_TOKEN | YAML_FLOW_SEQUENCE_END_TOKEN => {
                    Difference::PairKey
                }
                _ => Difference::Nowhere,
            },
            _ => Difference::Nowhere,
        }
    }
}
