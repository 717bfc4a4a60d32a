//! The call.
ghost use Rattle.std.specs.Prelude.{◌≡◌, ◌≤◌, ◌↔◌, ℕ, List, length, true};
ghost use Rattle.libyaml_types.specs.declared.mark.yaml_mark_t.{yaml_mark_t};
ghost use Rattle.libyaml_types.specs.declared.enums.yaml_token_type_t.{yaml_token_type_t};
ghost use Rattle.libyaml_automaton.specs.Acceptable.{acceptable, has};
ghost use Rattle.libyaml_automaton.specs.Automaton.{AtState};
ghost use Rattle.libyaml_automaton.specs.Config.{stacks_of, first_stacks, Within};
ghost use Rattle.libyaml_automaton.specs.Growth.{HasNoRoom};
ghost use Rattle.libyaml_automaton.specs.Purposes.{purpose_of};
ghost use Rattle.token_steps.specs.Differing.{differs_in};
ghost use Rattle.token_steps.specs.Exact.{step_by_fact_if, where_same_if};
ghost use Rattle.token_steps.specs.Facts as facts;
ghost use Rattle.token_steps.specs.Handed.{handed_token};
ghost use Rattle.token_steps.specs.Growth.{grows_states, grows_marks};
ghost use Rattle.token_steps.specs.Records.{AreFlags, AreUnused, kind_of, span_token};
ghost use Rattle.token_steps.specs.Numbers.{IsEventNumber, IsFaultNumber};
ghost use Rattle.token_steps.specs.Tells.{Tells, want_in, IsGiven, IsUntold};

use crate::did::Did;
use crate::handed::Handed;
use crate::out::Out;
use crate::records::{step_event_t, step_fault_t, step_span_t};
use libyaml_automaton::{Action, Automaton, Difference, Reading, Token, TokenTypes};
use libyaml_types::{yaml_mark_t, yaml_token_type_t};

/// What is kept between two calls, beside the two stacks: plain numbers, each with any value.
///
/// libyaml: `yaml_parser_t`, without its scanner and its texts.
#[repr(C)]
#[derive(Copy, Clone)]
pub struct steps_t {
    /// What is kept between two events.
    pub machine: Automaton,
    /// What was read since the last event.
    pub read: Reading,
    /// The fact of the tag that was read.
    pub tag: u8,
}

/// Returns the kind of token with libyaml's number, and `YAML_NO_TOKEN` for any other number.
#[inline(always)]
pub fn token_kind(number: u8) -> yaml_token_type_t
    ensures { result ≡ kind_of number }
{
    match number {
        1 => yaml_token_type_t::YAML_STREAM_START_TOKEN,
        2 => yaml_token_type_t::YAML_STREAM_END_TOKEN,
        3 => yaml_token_type_t::YAML_VERSION_DIRECTIVE_TOKEN,
        4 => yaml_token_type_t::YAML_TAG_DIRECTIVE_TOKEN,
        5 => yaml_token_type_t::YAML_DOCUMENT_START_TOKEN,
        6 => yaml_token_type_t::YAML_DOCUMENT_END_TOKEN,
        7 => yaml_token_type_t::YAML_BLOCK_SEQUENCE_START_TOKEN,
        8 => yaml_token_type_t::YAML_BLOCK_MAPPING_START_TOKEN,
        9 => yaml_token_type_t::YAML_BLOCK_END_TOKEN,
        10 => yaml_token_type_t::YAML_FLOW_SEQUENCE_START_TOKEN,
        11 => yaml_token_type_t::YAML_FLOW_SEQUENCE_END_TOKEN,
        12 => yaml_token_type_t::YAML_FLOW_MAPPING_START_TOKEN,
        13 => yaml_token_type_t::YAML_FLOW_MAPPING_END_TOKEN,
        14 => yaml_token_type_t::YAML_BLOCK_ENTRY_TOKEN,
        15 => yaml_token_type_t::YAML_FLOW_ENTRY_TOKEN,
        16 => yaml_token_type_t::YAML_KEY_TOKEN,
        17 => yaml_token_type_t::YAML_VALUE_TOKEN,
        18 => yaml_token_type_t::YAML_ALIAS_TOKEN,
        19 => yaml_token_type_t::YAML_ANCHOR_TOKEN,
        20 => yaml_token_type_t::YAML_TAG_TOKEN,
        21 => yaml_token_type_t::YAML_SCALAR_TOKEN,
        _ => yaml_token_type_t::YAML_NO_TOKEN,
    }
}

impl steps_t {
    /// Returns what is kept before a stream's first token.
    pub fn new() -> Self
        ensures config { (states : List ℕ) (marks : List yaml_mark_t)
            → stacks_of result.machine states marks ≡ first_stacks }
        ensures wanted { purpose_of result.read ≡ AtState }
        ensures within { (states : List ℕ) (marks : List yaml_mark_t) → Within result.machine states marks }
    {
        steps_t {
            machine: Automaton::new(),
            read: Reading::new(),
            tag: 0,
        }
    }

    /// Returns where libyaml does something else with a token of this kind, if it is handed in next.
    #[inline(always)]
    pub fn differs(&self, kind: yaml_token_type_t) -> Difference
        ensures { result ≡ differs_in self.now kind }
    {
        self.machine.differs(&self.read, kind)
    }

    /// Returns which types of token may be handed in next, in a run of calls (`laws::next_types`). If the
    /// record counts more states than their stack has room for, it returns none.
    ///
    /// The states that the record counts lie at the start of their slice.
    #[inline(always)]
    pub fn expected(&self, states: &[u8]) -> TokenTypes
        ensures { self.now.machine.states_count ≤ length states.now → (marks : List yaml_mark_t)
            (k : yaml_token_type_t) → has result k
            ≡ acceptable (purpose_of self.now.read) (stacks_of self.now.machine states.now marks) k }
    {
        if self.machine.states_count > states.len() {
            return TokenTypes::none();
        }
        self.machine.expected(&self.read, states)
    }

    /// Takes a token by its kind, fact and marks. Puts at most one event, or an error, and returns which.
    ///
    /// The states and marks that the record counts lie at the start of their slices. The fact says what the
    /// parser has to know of a token's texts: for a VERSION-DIRECTIVE 1 if its version is accepted, for a
    /// TAG-DIRECTIVE 1 if its handle is declared already, for a scalar 1 if it is written plain, and else 0;
    /// for a TAG 1 if the full tag is empty, 2 if it is `!`, 3 for any other, and 4 if its handle isn't
    /// declared. For any other token it is 0.
    ///
    /// libyaml: `yaml_parser_parse`, for one token.
    #[inline(always)]
    pub fn step(
        &mut self,
        states: &mut [u8],
        marks: &mut [yaml_mark_t],
        kind: yaml_token_type_t,
        fact: u8,
        at: &step_span_t,
        event: &mut step_event_t,
        fault: &mut step_fault_t,
    ) -> Did
        ensures tells { Tells result (facts.step_by_fact (want_in self.old)
            (stacks_of self.old.machine states.old marks.old) (span_token kind fact at.now))
            self.new event.new fault.new (stacks_of self.new.machine states.new marks.new) }
        ensures within { Within self.old.machine states.old marks.old
            → Within self.new.machine states.new marks.new }
        ensures bad { (result ≡ Did.Bad) ↔ (Within self.old.machine states.old marks.old → ⊥) }
        ensures full_states { Within self.old.machine states.old marks.old → (result ≡ Did.FullStates)
            ↔ (HasNoRoom (grows_states self.old kind) states.old self.old.machine.states_count
            × (HasNoRoom (grows_marks self.old kind) marks.old self.old.machine.marks_count → ⊥)) }
        ensures full_marks { Within self.old.machine states.old marks.old → (result ≡ Did.FullMarks)
            ↔ HasNoRoom (grows_marks self.old kind) marks.old self.old.machine.marks_count }
        ensures undone { IsUntold result → (self.new.machine ≡ self.old.machine) × ((states.new ≡ states.old)
            × ((marks.new ≡ marks.old) × (want_in self.new ≡ want_in self.old))) }
        ensures holds_nothing { IsGiven result → purpose_of self.new.read ≡ AtState }
        ensures event_number { IsGiven result → IsEventNumber event.new.kind }
        ensures event_flags { IsGiven result → AreFlags event.new }
        ensures event_unused { IsGiven result → AreUnused event.new }
        ensures fault_number { result ≡ Did.Failed → IsFaultNumber fault.new.problem }
        ensures event_kept { (IsGiven result → ⊥) → event.new ≡ event.old }
        ensures fault_kept { (result ≡ Did.Failed → ⊥) → fault.new ≡ fault.old }
    {
        self.step_as::<false>(
            states,
            marks,
            &Handed { kind, fact, at },
            &mut Out { event, fault },
        )
    }

    /// Takes a token in the way of `step`, or of `step_exact`.
    #[inline(always)]
    pub(crate) fn step_as<const IS_EXACT: bool>(
        &mut self,
        states: &mut [u8],
        marks: &mut [yaml_mark_t],
        token: &Handed,
        out: &mut Out,
    ) -> Did
        ensures tells { Tells result (step_by_fact_if IS_EXACT (want_in self.old)
            (stacks_of self.old.machine states.old marks.old) (handed_token token.now))
            self.new out.new.event.now out.new.fault.now (stacks_of self.new.machine states.new marks.new) }
        ensures within { Within self.old.machine states.old marks.old
            → Within self.new.machine states.new marks.new }
        ensures bad { (result ≡ Did.Bad) ↔ (Within self.old.machine states.old marks.old → ⊥) }
        ensures full_states { Within self.old.machine states.old marks.old → (result ≡ Did.FullStates)
            ↔ (HasNoRoom (where_same_if IS_EXACT (differs_in self.old token.now.kind) (grows_states self.old
            token.now.kind)) states.old self.old.machine.states_count
            × (HasNoRoom (where_same_if IS_EXACT (differs_in self.old token.now.kind) (grows_marks self.old
            token.now.kind)) marks.old self.old.machine.marks_count → ⊥)) }
        ensures full_marks { Within self.old.machine states.old marks.old → (result ≡ Did.FullMarks)
            ↔ HasNoRoom (where_same_if IS_EXACT (differs_in self.old token.now.kind) (grows_marks self.old
            token.now.kind)) marks.old self.old.machine.marks_count }
        ensures undone { IsUntold result → (self.new.machine ≡ self.old.machine) × ((states.new ≡ states.old)
            × ((marks.new ≡ marks.old) × (want_in self.new ≡ want_in self.old))) }
        ensures holds_nothing { IsGiven result → purpose_of self.new.read ≡ AtState }
        ensures event_number { IsGiven result → IsEventNumber out.new.event.now.kind }
        ensures event_flags { IsGiven result → AreFlags out.new.event.now }
        ensures event_unused { IsGiven result → AreUnused out.new.event.now }
        ensures fault_number { result ≡ Did.Failed → IsFaultNumber out.new.fault.now.problem }
        ensures event_kept { (IsGiven result → ⊥) → out.new.event.now ≡ out.old.event.now }
        ensures fault_kept { (result ≡ Did.Failed → ⊥) → out.new.fault.now ≡ out.old.fault.now }
        ensures same_event { out.new.event.ghost_name ≡ out.old.event.ghost_name }
        ensures same_fault { out.new.fault.ghost_name ≡ out.old.fault.ghost_name }
    {
        if self.machine.states_count > states.len() || self.machine.marks_count > marks.len() {
            return Did::Bad;
        }
        self.read.settle(&self.machine);
        match self.machine.step::<false, IS_EXACT>(
            &mut self.read,
            states,
            marks,
            &Token {
                kind: token.kind,
                start_mark: &token.at.start_mark,
                end_mark: &token.at.end_mark,
            },
        ) {
            Action::FullStates => Did::FullStates,
            Action::FullMarks => Did::FullMarks,
            // a copy, so that the token itself needs no place in memory
            Action::Document => self.document::<IS_EXACT>(
                states,
                &Handed { ..*token },
                out.event,
                out.fault,
            ),
            Action::AsksContent => self.content(states, marks, token, out),
            led => self.tell_bare(led, token, out.event, out.fault),
        }
    }
}
