//! Events with texts, over the parser without texts (`libyaml_automaton`).
//!
//! The automaton takes each token by its kind and marks, and returns which event it led to, if any. What is
//! left for the functions here are texts: they put them into the event, or hold those of properties and
//! directives until the event comes.
//!
//! The token is in a variable of the parser's. A function moves out of it what it keeps of the token; the
//! rest is dropped when the next token is put there.
ghost use Rattle.std.specs.Prelude.{◌≡◌, true};
ghost use Rattle.libyaml_types.specs.Types.{token_type};
ghost use Rattle.libyaml_grammar.specs.grammar.Events.{event};
ghost use Rattle.libyaml_automaton.specs.Numbers.{next_of};
ghost use Rattle.libyaml_automaton.specs.Fits.{FitsStep, IsFull, IsNothingDone, Documents};
ghost use Rattle.libyaml_automaton.specs.Growth.{stack_part_of};
ghost use Rattle.libyaml_events.specs.machine.Config.{with_fault};
ghost use Rattle.libyaml_events.specs.machine.Machine.{fault_with, step};
ghost use Rattle.libyaml_events.specs.machine.Steps.{Steps};
ghost use Rattle.libyaml_events.specs.machine.Outcomes.{StillHeld, held_handle, result_of, wanted};
ghost use Rattle.libyaml_events.specs.machine.Growth.{may_grow};
ghost use Rattle.libyaml_events.specs.automaton.AutomatonResults.{GrowsAfter, IsPut, FollowsAutomaton, Puts};
ghost use Rattle.libyaml_events.specs.automaton.View.{Ready};

mod after_properties;
mod contents;
mod documents;
mod node_events;
mod properties;

use crate::parser::TokenParser;
use crate::pending::Pending;
use crate::states::contents::{
    put_alias, put_bare_scalar, put_empty_scalar, put_mapping_end, put_mapping_start,
    put_sequence_end, put_sequence_start,
};
use crate::step::Step;
use libyaml_automaton::{
    Action, DUPLICATE_TAG, DUPLICATE_VERSION, INCOMPATIBLE_VERSION, NO_BLOCK_CONTENT,
    NO_DOCUMENT_START, NO_FLOW_CONTENT, NO_ITEM, NO_KEY, NO_SEQUENCE_SEPARATOR, NO_STREAM_START,
    Token, UNDEFINED_HANDLE,
};
use libyaml_types::{
    unnamed_yaml_event_t_data, unnamed_yaml_token_t_data, yaml_error_type_t, yaml_event_t,
    yaml_mapping_style_t, yaml_mark_t, yaml_sequence_style_t, yaml_token_t,
};

/// Puts an event with these marks into `out`.
#[inline(always)]
fn give(
    out: &mut yaml_event_t,
    content: unnamed_yaml_event_t_data,
    start_mark: yaml_mark_t,
    end_mark: yaml_mark_t,
)
    ensures { out.new ≡ event content start_mark end_mark }
{
    out.start_mark = start_mark;
    out.end_mark = end_mark;
    out.content = content;
}

impl TokenParser {
    /// Takes one token in the function that `pending.reading` names, and returns what it led to. `out` gets
    /// the event. An error is kept.
    ///
    /// `Caller` is a type for each caller, so that the step is compiled for it alone, and then inlined
    /// there as a whole. Inlined into the loop of `parse_event` at once, flow collections take 9 in 100
    /// instructions more: the compiler moves a part of each step out of the loop. With one type for both
    /// callers in `push.rt`, a push takes 6 in 100 more.
    ///
    /// libyaml: `yaml_parser_state_machine`.
    pub(crate) fn step<Caller>(
        &mut self,
        token: &mut yaml_token_t,
        pending: &mut Pending,
        out: &mut yaml_event_t,
    ) -> Step
        requires ready { Ready pending.old self.old }
        ensures steps { Steps (step (wanted pending.old) self.old token.old)
            (result_of result pending.new out.new token.new self.new) self.new }
        ensures ready { result ≡ Step.Wants → Ready pending.new self.new }
        ensures grows { result ≡ Step.Failed → self.new.fault.error ≡ yaml_error_type_t.YAML_MEMORY_ERROR
            → may_grow (wanted pending.old) self.old token.old.content ≡ true }
        ensures held { result ≡ Step.Failed → StillHeld (wanted pending.old) pending.new }
    {
        match self.step_automaton(token, pending) {
            Action::FullStates => self.step_again(Action::FullStates, token, pending, out),
            Action::FullMarks => self.step_again(Action::FullMarks, token, pending, out),
            Action::Document => self.step_document(token, pending, out),
            led => self.put(led, token, pending, out),
        }
    }

    /// Does a step for which this stack had no room, once it has grown.
    #[cold]
    #[inline(never)]
    fn step_again(
        &mut self,
        full: Action,
        token: &mut yaml_token_t,
        pending: &mut Pending,
        out: &mut yaml_event_t,
    ) -> Step
        requires ready { Ready pending.old self.old }
        requires grows { may_grow (wanted pending.old) self.old token.old.content ≡ true }
        ensures steps { Steps (step (wanted pending.old) self.old token.old)
            (result_of result pending.new out.new token.new self.new) self.new }
        ensures ready { result ≡ Step.Wants → Ready pending.new self.new }
        ensures held { result ≡ Step.Failed → StillHeld (wanted pending.old) pending.new }
    {
        if !self.automaton.grow(full) {
            return self.fail_out_of_memory();
        }
        match self.step_automaton(token, pending) {
            Action::FullStates => self.fail_out_of_memory(),
            Action::FullMarks => self.fail_out_of_memory(),
            Action::Document => self.step_document(token, pending, out),
            led => self.put(led, token, pending, out),
        }
    }

    /// Does a step of the parser without texts.
    #[inline(always)]
    fn step_automaton(&mut self, token: &yaml_token_t, pending: &mut Pending) -> Action
        requires { Ready pending.old self.old }
        ensures led { FollowsAutomaton (step (wanted pending.old) self.old token.now)
            (wanted pending.old).texts token.now result pending.new self.new }
        ensures fits { FitsStep result (token_type token.now.content) pending.new.reading self.new.state }
        ensures texts { pending.new ≡ record pending.old { reading = pending.new.reading } }
        ensures undone { IsNothingDone result → Ready pending.new self.new
            × (wanted pending.new ≡ wanted pending.old) × (self.new ≡ self.old) }
        ensures documents { result ≡ Action.Document
            → stack_part_of (next_of pending.new.reading.next) ≡ Documents }
        ensures grows { IsFull result → may_grow (wanted pending.old) self.old token.now.content ≡ true }
        ensures content { result ≡ Action.AsksContent → GrowsAfter pending.new self.new token.now
            → may_grow (wanted pending.old) self.old token.now.content ≡ true }
    {
        self.automaton.automaton.step::<true, false>(
            &mut pending.reading,
            self.automaton.states.as_mut_slice(),
            self.automaton.marks.as_mut_slice(),
            &Token {
                kind: token.type_(),
                start_mark: &token.start_mark,
                end_mark: &token.end_mark,
            },
        )
    }

    /// Puts the event that the step led to, with its texts.
    #[inline(always)]
    fn put(
        &mut self,
        led: Action,
        token: &mut yaml_token_t,
        pending: &mut Pending,
        out: &mut yaml_event_t,
    ) -> Step
        requires put { IsPut led }
        requires fits { FitsStep led (token_type token.old.content) pending.old.reading self.old.state }
        ensures puts { Puts led token.old pending.old self.old result token.new pending.new out.new self.new }
        ensures grows { result ≡ Step.Failed → self.new.fault.error ≡ yaml_error_type_t.YAML_MEMORY_ERROR
            → (led ≡ Action.AsksContent) × GrowsAfter pending.old self.old token.old }
        ensures handle { result ≡ Step.Failed → held_handle pending.new ≡ held_handle pending.old }
    {
        match led {
            Action::Wants => Step::Wants,
            Action::Scalar => {
                out.start_mark = token.start_mark;
                out.end_mark = token.end_mark;
                if let unnamed_yaml_token_t_data::Scalar(scalar) = &mut token.content {
                    put_bare_scalar(&mut self.spare, scalar, &mut out.content);
                }
                Step::Given
            }
            Action::Empty => {
                out.start_mark = token.start_mark;
                out.end_mark = token.start_mark;
                put_empty_scalar(&mut self.spare, &mut out.content);
                Step::GivenBefore
            }
            Action::EmptyAfter => {
                out.start_mark = pending.reading.mark;
                out.end_mark = pending.reading.mark;
                put_empty_scalar(&mut self.spare, &mut out.content);
                Step::GivenBefore
            }
            Action::SequenceEnd => {
                out.start_mark = token.start_mark;
                out.end_mark = token.end_mark;
                put_sequence_end(&mut self.spare, &mut out.content);
                Step::Given
            }
            Action::MappingEnd => {
                out.start_mark = token.start_mark;
                out.end_mark = token.end_mark;
                put_mapping_end(&mut self.spare, &mut out.content);
                Step::Given
            }
            Action::IndentlessEnd => {
                out.start_mark = token.start_mark;
                out.end_mark = token.start_mark;
                put_sequence_end(&mut self.spare, &mut out.content);
                Step::GivenBefore
            }
            Action::PairEnd => {
                out.start_mark = token.start_mark;
                out.end_mark = token.start_mark;
                put_mapping_end(&mut self.spare, &mut out.content);
                Step::GivenBefore
            }
            Action::Alias => {
                out.start_mark = token.start_mark;
                out.end_mark = token.end_mark;
                if let unnamed_yaml_token_t_data::Alias(alias) = &mut token.content {
                    put_alias(&mut self.spare, alias, &mut out.content);
                }
                Step::Given
            }
            Action::Pair => {
                out.start_mark = token.start_mark;
                out.end_mark = token.end_mark;
                put_mapping_start(
                    yaml_mapping_style_t::YAML_FLOW_MAPPING_STYLE,
                    &mut self.spare,
                    &mut out.content,
                );
                Step::Given
            }
            Action::IndentlessSequence => {
                out.start_mark = token.start_mark;
                out.end_mark = token.end_mark;
                put_sequence_start(
                    yaml_sequence_style_t::YAML_BLOCK_SEQUENCE_STYLE,
                    &mut self.spare,
                    &mut out.content,
                );
                Step::GivenBefore
            }
            Action::BlockSequence => {
                out.start_mark = token.start_mark;
                out.end_mark = token.end_mark;
                put_sequence_start(
                    yaml_sequence_style_t::YAML_BLOCK_SEQUENCE_STYLE,
                    &mut self.spare,
                    &mut out.content,
                );
                Step::Given
            }
            Action::BlockMapping => {
                out.start_mark = token.start_mark;
                out.end_mark = token.end_mark;
                put_mapping_start(
                    yaml_mapping_style_t::YAML_BLOCK_MAPPING_STYLE,
                    &mut self.spare,
                    &mut out.content,
                );
                Step::Given
            }
            Action::FlowSequence => {
                out.start_mark = token.start_mark;
                out.end_mark = token.end_mark;
                put_sequence_start(
                    yaml_sequence_style_t::YAML_FLOW_SEQUENCE_STYLE,
                    &mut self.spare,
                    &mut out.content,
                );
                Step::Given
            }
            Action::FlowMapping => {
                out.start_mark = token.start_mark;
                out.end_mark = token.end_mark;
                put_mapping_start(
                    yaml_mapping_style_t::YAML_FLOW_MAPPING_STYLE,
                    &mut self.spare,
                    &mut out.content,
                );
                Step::Given
            }
            Action::AsksContent => {
                if pending.reading.has_tag == 0 {
                    return self.put_content_after_anchor(token, pending, out);
                }
                self.put_content_after(token, pending, out)
            }
            Action::WantsAnchor => {
                self.hold_anchor(token, pending);
                Step::Wants
            }
            Action::WantsTag => {
                self.hold_tag(token, pending);
                Step::Wants
            }
            Action::Failed => {
                self.set_problem(
                    pending.reading.problem,
                    &token.start_mark,
                    &token.start_mark,
                )
            }
            Action::FailedWithin => {
                self.set_problem(
                    pending.reading.problem,
                    &pending.reading.mark,
                    &token.start_mark,
                )
            }
            _ => unreachable!(),
        }
    }

    /// Keeps the error of this number, which the parser without texts gave.
    #[cold]
    #[inline(never)]
    fn set_problem(&mut self, problem: u8, context_mark: &yaml_mark_t, mark: &yaml_mark_t) -> Step
        ensures failed { result ≡ Step.Failed }
        ensures error { self.new.fault.error ≡ yaml_error_type_t.YAML_PARSER_ERROR }
        ensures kept { self.new ≡ with_fault self.old
            (fault_with (record { problem = problem; context_mark = context_mark.now; mark = mark.now })) }
    {
        match problem {
            NO_STREAM_START => self.set_parser_error("did not find expected <stream-start>", *mark),
            NO_DOCUMENT_START => self.set_parser_error(
                "did not find expected <document start>",
                *mark,
            ),
            DUPLICATE_VERSION => self.set_parser_error("found duplicate %YAML directive", *mark),
            INCOMPATIBLE_VERSION => self.set_parser_error(
                "found incompatible YAML document",
                *mark,
            ),
            DUPLICATE_TAG => self.set_parser_error("found duplicate %TAG directive", *mark),
            NO_BLOCK_CONTENT => self.set_parser_error_context(
                "while parsing a block node",
                *mark,
                "did not find expected node content",
                *mark,
            ),
            NO_FLOW_CONTENT => self.set_parser_error_context(
                "while parsing a flow node",
                *mark,
                "did not find expected node content",
                *mark,
            ),
            UNDEFINED_HANDLE => self.set_parser_error_context(
                "while parsing a node",
                *context_mark,
                "found undefined tag handle",
                *mark,
            ),
            NO_ITEM => self.set_parser_error_context(
                "while parsing a block collection",
                *context_mark,
                "did not find expected '-' indicator",
                *mark,
            ),
            NO_KEY => self.set_parser_error_context(
                "while parsing a block mapping",
                *context_mark,
                "did not find expected key",
                *mark,
            ),
            NO_SEQUENCE_SEPARATOR => self.set_parser_error_context(
                "while parsing a flow sequence",
                *context_mark,
                "did not find expected ',' or ']'",
                *mark,
            ),
            _ => self.set_parser_error_context(
                "while parsing a flow mapping",
                *context_mark,
                "did not find expected ',' or '}'",
                *mark,
            ),
        };
        Step::Failed
    }
}
