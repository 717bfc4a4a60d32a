//! Which types of token may come next.
ghost use Rattle.std.specs.Prelude.{◌≡◌, ◌≤◌, ◌||◌, List, length};
ghost use Rattle.libyaml_types.specs.declared.mark.yaml_mark_t.{yaml_mark_t};
ghost use Rattle.libyaml_types.specs.declared.enums.yaml_token_type_t.{yaml_token_type_t};
ghost use Rattle.libyaml_automaton.specs.Acceptable.{acceptable, taken_after_directive, taken_after_document};
ghost use Rattle.libyaml_automaton.specs.Acceptable.{after_entry, after_item, after_pair, after_part};
ghost use Rattle.libyaml_automaton.specs.Acceptable.{taken_after_properties, at_entry, at_pair};
ghost use Rattle.libyaml_automaton.specs.Acceptable.{taken_at_slot};
ghost use Rattle.libyaml_automaton.specs.Acceptable.{before_document, begins_content, begins_explicit};
ghost use Rattle.libyaml_automaton.specs.Acceptable.{begins_node, has, taken_in_stack, taken_in_state};
ghost use Rattle.libyaml_automaton.specs.Config.{below, stacks_of, states_of, top};
ghost use Rattle.libyaml_automaton.specs.Numbers.{flag, place_of, state_of};
ghost use Rattle.libyaml_automaton.specs.Purposes.{purpose_of};
ghost use Rattle.libyaml_automaton.specs.Slots.{is_nothing_before};

use crate::automaton::Automaton;
use crate::next::Next;
use crate::node_place::NodePlace;
use crate::reading::Reading;
use crate::slot::Slot;
use crate::stacks::{state_of_number, top_state};
use crate::token_types::TokenTypes;
use libyaml_types::yaml_parser_state_t;
use libyaml_types::yaml_parser_state_t::*;
use libyaml_types::yaml_token_type_t::*;

impl NodePlace {
    /// Returns what begins a node's content.
    fn content(self) -> TokenTypes
        ensures { (k : yaml_token_type_t) → has result k ≡ begins_content self k }
    {
        let flow = TokenTypes::none()
            .with(YAML_SCALAR_TOKEN)
            .with(YAML_FLOW_SEQUENCE_START_TOKEN)
            .with(YAML_FLOW_MAPPING_START_TOKEN);
        let block = flow
            .with(YAML_BLOCK_SEQUENCE_START_TOKEN)
            .with(YAML_BLOCK_MAPPING_START_TOKEN);
        match self {
            NodePlace::Block => block,
            NodePlace::BlockOrIndentlessSequence => block.with(YAML_BLOCK_ENTRY_TOKEN),
            NodePlace::Flow => flow,
        }
    }

    /// Returns what begins a node.
    fn node(self) -> TokenTypes
        ensures { (k : yaml_token_type_t) → has result k ≡ begins_node self k }
    {
        self.content()
            .with(YAML_ALIAS_TOKEN)
            .with(YAML_ANCHOR_TOKEN)
            .with(YAML_TAG_TOKEN)
    }
}

/// Returns what begins an explicit document, or ends the stream.
fn explicit_document() -> TokenTypes
    ensures { (k : yaml_token_type_t) → has result k ≡ begins_explicit k }
{
    TokenTypes::none()
        .with(YAML_VERSION_DIRECTIVE_TOKEN)
        .with(YAML_TAG_DIRECTIVE_TOKEN)
        .with(YAML_DOCUMENT_START_TOKEN)
        .with(YAML_STREAM_END_TOKEN)
}

fn document_due(behind_document_end: bool) -> TokenTypes
    ensures { (k : yaml_token_type_t) → has result k ≡ before_document behind_document_end k }
{
    let due = explicit_document().union(NodePlace::Block.node());
    if behind_document_end {
        return due.with(YAML_DOCUMENT_END_TOKEN);
    }
    due
}

fn item_done() -> TokenTypes
    ensures { (k : yaml_token_type_t) → has result k ≡ after_item k }
{
    TokenTypes::none()
        .with(YAML_BLOCK_ENTRY_TOKEN)
        .with(YAML_BLOCK_END_TOKEN)
}

fn part_done() -> TokenTypes
    ensures { (k : yaml_token_type_t) → has result k ≡ after_part k }
{
    TokenTypes::none()
        .with(YAML_KEY_TOKEN)
        .with(YAML_VALUE_TOKEN)
        .with(YAML_BLOCK_END_TOKEN)
}

fn entry_done() -> TokenTypes
    ensures { (k : yaml_token_type_t) → has result k ≡ after_entry k }
{
    TokenTypes::none()
        .with(YAML_FLOW_ENTRY_TOKEN)
        .with(YAML_FLOW_SEQUENCE_END_TOKEN)
}

fn pair_done() -> TokenTypes
    ensures { (k : yaml_token_type_t) → has result k ≡ after_pair k }
{
    TokenTypes::none()
        .with(YAML_FLOW_ENTRY_TOKEN)
        .with(YAML_FLOW_MAPPING_END_TOKEN)
}

fn entry_due() -> TokenTypes
    ensures { (k : yaml_token_type_t) → has result k ≡ at_entry k }
{
    NodePlace::Flow
        .node()
        .with(YAML_KEY_TOKEN)
        .with(YAML_FLOW_SEQUENCE_END_TOKEN)
}

fn pair_due() -> TokenTypes
    ensures { (k : yaml_token_type_t) → has result k ≡ at_pair k }
{
    NodePlace::Flow
        .node()
        .with(YAML_KEY_TOKEN)
        .with(YAML_FLOW_MAPPING_END_TOKEN)
}

fn directive_done(has_version: bool) -> TokenTypes
    ensures { (k : yaml_token_type_t) → has result k ≡ taken_after_directive has_version k }
{
    let due = TokenTypes::none()
        .with(YAML_TAG_DIRECTIVE_TOKEN)
        .with(YAML_DOCUMENT_START_TOKEN);
    if has_version {
        return due;
    }
    due.with(YAML_VERSION_DIRECTIVE_TOKEN)
}

fn properties_done(place: NodePlace, has_anchor: bool, has_tag: bool) -> TokenTypes
    ensures { (k : yaml_token_type_t) → has result k ≡ taken_after_properties place has_anchor has_tag k }
{
    let content = place.content();
    match (has_anchor, has_tag) {
        (true, true) => content,
        (true, false) => content.with(YAML_TAG_TOKEN),
        (false, true) => content.with(YAML_ANCHOR_TOKEN),
        (false, false) => content.with(YAML_ANCHOR_TOKEN).with(YAML_TAG_TOKEN),
    }
}

impl Slot {
    /// Returns the tokens before which the node here is nothing.
    fn empty(self) -> TokenTypes
        ensures { (k : yaml_token_type_t) → has result k ≡ is_nothing_before self k }
    {
        match self {
            Slot::BlockEntry => item_done(),
            Slot::IndentlessEntry => part_done().with(YAML_BLOCK_ENTRY_TOKEN),
            Slot::BlockKey | Slot::BlockValue => part_done(),
            Slot::Document => explicit_document().with(YAML_DOCUMENT_END_TOKEN),
            Slot::PairKey => entry_done().with(YAML_VALUE_TOKEN),
            Slot::PairValue => entry_done(),
            Slot::FlowKey => pair_done().with(YAML_VALUE_TOKEN),
            Slot::FlowValue => pair_done(),
        }
    }

    /// Returns what may stand here, or after a node here that is nothing.
    fn expected(self) -> TokenTypes
        ensures { (k : yaml_token_type_t) → has result k ≡ taken_at_slot self k }
    {
        self.empty().union(self.place().node())
    }
}

/// Returns what a state takes, except that of a sequence without tokens of its own.
fn expected_in(state: yaml_parser_state_t, behind_document_end: bool) -> TokenTypes
    ensures { (k : yaml_token_type_t) → has result k ≡ taken_in_state state behind_document_end k }
{
    match state {
        YAML_PARSE_STREAM_START_STATE => TokenTypes::none().with(YAML_STREAM_START_TOKEN),
        YAML_PARSE_IMPLICIT_DOCUMENT_START_STATE => document_due(behind_document_end),
        YAML_PARSE_DOCUMENT_START_STATE => explicit_document(),
        YAML_PARSE_DOCUMENT_CONTENT_STATE => Slot::Document.expected(),
        YAML_PARSE_DOCUMENT_END_STATE => explicit_document().with(YAML_DOCUMENT_END_TOKEN),
        YAML_PARSE_BLOCK_NODE_STATE => NodePlace::Block.node(),
        YAML_PARSE_BLOCK_NODE_OR_INDENTLESS_SEQUENCE_STATE => {
            NodePlace::BlockOrIndentlessSequence.node()
        }
        YAML_PARSE_FLOW_NODE_STATE => NodePlace::Flow.node(),
        YAML_PARSE_BLOCK_SEQUENCE_ENTRY_STATE => item_done(),
        YAML_PARSE_BLOCK_MAPPING_KEY_STATE => part_done(),
        YAML_PARSE_BLOCK_MAPPING_VALUE_STATE => part_done(),
        YAML_PARSE_FLOW_SEQUENCE_FIRST_ENTRY_STATE => entry_due(),
        YAML_PARSE_FLOW_SEQUENCE_ENTRY_STATE => entry_done(),
        YAML_PARSE_FLOW_SEQUENCE_ENTRY_MAPPING_KEY_STATE => Slot::PairKey.expected(),
        YAML_PARSE_FLOW_SEQUENCE_ENTRY_MAPPING_VALUE_STATE => entry_done().with(YAML_VALUE_TOKEN),
        YAML_PARSE_FLOW_SEQUENCE_ENTRY_MAPPING_END_STATE => entry_done(),
        YAML_PARSE_FLOW_MAPPING_FIRST_KEY_STATE => pair_due(),
        YAML_PARSE_FLOW_MAPPING_KEY_STATE => pair_done(),
        YAML_PARSE_FLOW_MAPPING_VALUE_STATE => pair_done().with(YAML_VALUE_TOKEN),
        YAML_PARSE_FLOW_MAPPING_EMPTY_VALUE_STATE => pair_done(),
        _ => TokenTypes::none(),
    }
}

/// Returns what a state takes, where so many states lie below it.
fn expected_over(
    state: yaml_parser_state_t,
    states: &[u8],
    count: usize,
    behind_document_end: bool,
) -> TokenTypes
    requires { count ≤ length states.now }
    ensures { (k : yaml_token_type_t) → has result k
        ≡ taken_in_stack state (states_of count states.now) behind_document_end k }
{
    match state {
        YAML_PARSE_INDENTLESS_SEQUENCE_ENTRY_STATE => {
            expected_in(top_state(states, count), behind_document_end).with(YAML_BLOCK_ENTRY_TOKEN)
        }
        _ => expected_in(state, behind_document_end),
    }
}

impl Automaton {
    /// Returns which types of token may come next: with some token of such a type, and of no other, the
    /// tokens taken so far still begin a valid list. Of a VERSION-DIRECTIVE, a TAG-DIRECTIVE or a TAG it is
    /// one that the automaton would ask about: with an accepted version, a handle not yet declared, a
    /// defined one.
    pub fn expected(&self, read: &Reading, states: &[u8]) -> TokenTypes
        requires { self.now.states_count ≤ length states.now }
        ensures { (marks : List yaml_mark_t) (k : yaml_token_type_t) → has result k
            ≡ acceptable (purpose_of read.now) (stacks_of self.now states.now marks) k }
    {
        match Next::of_number(read.next) {
            Next::AfterDirective => directive_done(read.has_version != 0),
            Next::AfterProperties => self.expected_after_properties(read, states),
            Next::AfterBlockEntry => Slot::BlockEntry.expected(),
            Next::AfterIndentlessEntry => Slot::IndentlessEntry.expected(),
            Next::AfterKey => Slot::BlockKey.expected(),
            Next::AfterValue => Slot::BlockValue.expected(),
            Next::AfterFlowSequenceValue => Slot::PairValue.expected(),
            Next::AfterFlowMappingKey => Slot::FlowKey.expected(),
            Next::AfterFlowMappingValue => Slot::FlowValue.expected(),
            _ => expected_over(
                state_of_number(self.state),
                states,
                self.states_count,
                self.behind_document_end != 0,
            ),
        }
    }

    fn expected_after_properties(&self, read: &Reading, states: &[u8]) -> TokenTypes
        requires { self.now.states_count ≤ length states.now }
        ensures { (k : yaml_token_type_t) → has result k
            ≡ (taken_after_properties (place_of read.now.place) (flag read.now.has_anchor) (flag read.now.has_tag) k
            || taken_in_stack (top (states_of self.now.states_count states.now))
            (below (states_of self.now.states_count states.now)) (flag self.now.behind_document_end) k) }
    {
        let further = properties_done(
            NodePlace::of_number(read.place),
            read.has_anchor != 0,
            read.has_tag != 0,
        );
        let state = top_state(states, self.states_count);
        further.union(expected_over(
            state,
            states,
            self.states_count.saturating_sub(1),
            self.behind_document_end != 0,
        ))
    }
}
