//! The content of a node after its properties.
ghost use Rattle.std.specs.Prelude.{◌≡◌, ◌⊎◌, ℕ, None, Ok, IfErr, IfOk, List, Option, OnOk, option_map};
ghost use Rattle.std.specs.Prelude.{string_bytes, true};
ghost use Rattle.libyaml_types.specs.Types.{token_type};
ghost use Rattle.libyaml_types.specs.declared.mark.yaml_mark_t.{yaml_mark_t};
ghost use Rattle.libyaml_types.specs.declared.token.yaml_token_t.{yaml_token_t};
ghost use Rattle.libyaml_automaton.specs.declared.action.Action.{Action};
ghost use Rattle.libyaml_grammar.specs.grammar.Events.{event};
ghost use Rattle.libyaml_types.specs.declared.enums.yaml_token_type_t.TheVariants.{YAML_SCALAR_TOKEN};
ghost use Rattle.libyaml_automaton.specs.Numbers.{flag, place_of};
ghost use Rattle.libyaml_automaton.specs.Fits.{FitsContent, IsFull, opens_at};
ghost use Rattle.libyaml_events.specs.machine.Outcomes.{held_handle, only_if, result_of};
ghost use Rattle.libyaml_events.specs.machine.Growth.{joins};
ghost use Rattle.libyaml_events.specs.machine.Machine.{Progressed};
ghost use Rattle.libyaml_events.specs.machine.Steps.{Steps};
ghost use Rattle.libyaml_events.specs.machine.Want.{Texts};
ghost use Rattle.libyaml_events.specs.automaton.AutomatonResults.{GrowsAfter, IsContent, IsOpening, Puts};
ghost use Rattle.libyaml_events.specs.automaton.AutomatonResults.{PutsContent};
ghost use Rattle.libyaml_events.specs.automaton.AutomatonResults.{ReadsTag, RefusesTag, SaysContent};

use crate::parser::TokenParser;
use crate::pending::Pending;
use crate::states::contents::{make_light, put_anchored_scalar, put_over, put_scalar};
use crate::states::node_events::{collection_start, is_missing, plain_scalar, sequence_start};
use crate::states::properties::{forget_earlier, take_anchor};
use crate::step::Step;
use libyaml_automaton::{Action, Token};
use libyaml_types::yaml_token_type_t::*;
use libyaml_types::{
    unnamed_yaml_event_t_data, unnamed_yaml_token_t_data, yaml_error_type_t, yaml_event_t,
    yaml_mark_t, yaml_sequence_style_t, yaml_token_t, yaml_token_type_t,
};

impl TokenParser {
    /// Puts the content of a node after its properties. A handle that is not defined is found here.
    #[inline(never)]
    pub(super) fn put_content_after(
        &mut self,
        token: &mut yaml_token_t,
        pending: &mut Pending,
        out: &mut yaml_event_t,
    ) -> Step
        ensures puts { Puts Action.AsksContent token.old pending.old self.old result token.new pending.new
            out.new self.new }
        ensures grows { result ≡ Step.Failed → self.new.fault.error ≡ yaml_error_type_t.YAML_MEMORY_ERROR
            → GrowsAfter pending.old self.old token.old }
        ensures handle { result ≡ Step.Failed → held_handle pending.new ≡ held_handle pending.old }
    {
        let tag = match self.take_tag(pending) {
            Ok(tag) => tag,
            Err(_) => return Step::Failed,
        };
        self.put_content(tag, token, pending, out)
    }

    /// Puts the content of a node after an anchor alone.
    #[inline(never)]
    pub(super) fn put_content_after_anchor(
        &mut self,
        token: &mut yaml_token_t,
        pending: &mut Pending,
        out: &mut yaml_event_t,
    ) -> Step
        requires untagged { pending.old.reading.has_tag ≡ 0 }
        ensures puts { Puts Action.AsksContent token.old pending.old self.old result token.new pending.new
            out.new self.new }
        ensures grows { result ≡ Step.Failed → self.new.fault.error ≡ yaml_error_type_t.YAML_MEMORY_ERROR
            → GrowsAfter pending.old self.old token.old }
        ensures handle { result ≡ Step.Failed → held_handle pending.new ≡ held_handle pending.old }
    {
        self.put_content(None, token, pending, out)
    }

    /// Puts the content of a node after its properties, with its tag in full. A scalar's kind is named here,
    /// so that its step is compiled by itself: without a further jump, and without what other contents need.
    #[inline(always)]
    fn put_content(
        &mut self,
        tag: Option<String>,
        token: &mut yaml_token_t,
        pending: &mut Pending,
        out: &mut yaml_event_t,
    ) -> Step
        ensures puts { (o : Progressed) (h : Texts) → IsContent o h
            (only_if (flag pending.old.reading.has_anchor) pending.old.properties.anchor)
            (option_map string_bytes tag) token.old pending.old.reading self.old
            → Steps o (result_of result pending.new out.new token.new self.new) self.new
            × (result ≡ Step.Wants → ⊥) }
        ensures grows { result ≡ Step.Failed → self.new.fault.error ≡ yaml_error_type_t.YAML_MEMORY_ERROR
            → opens_at (place_of pending.old.reading.place) (token_type token.old.content) ≡ true }
        ensures handle { result ≡ Step.Failed → held_handle pending.new ≡ held_handle pending.old }
    {
        forget_earlier(pending);
        out.start_mark = pending.reading.start_mark;
        match token.type_() {
            YAML_SCALAR_TOKEN => self.put_content_of::<true>(tag, token, pending, out),
            _ => self.put_other_content(tag, token, pending, out),
        }
    }

    /// Puts a content that doesn't begin with a scalar.
    #[inline(never)]
    fn put_other_content(
        &mut self,
        tag: Option<String>,
        token: &mut yaml_token_t,
        pending: &mut Pending,
        out: &mut yaml_event_t,
    ) -> Step
        requires start { out.old.start_mark ≡ pending.old.reading.start_mark }
        ensures puts { (o : Progressed) (h : Texts) → IsContent o h pending.old.properties.anchor
            (option_map string_bytes tag) token.old pending.old.reading self.old
            → Steps o (result_of result pending.new out.new token.new self.new) self.new
            × (result ≡ Step.Wants → ⊥) }
        ensures grows { result ≡ Step.Failed → self.new.fault.error ≡ yaml_error_type_t.YAML_MEMORY_ERROR
            → opens_at (place_of pending.old.reading.place) (token_type token.old.content) ≡ true }
        ensures handle { result ≡ Step.Failed → held_handle pending.new ≡ held_handle pending.old }
    {
        self.put_content_of::<false>(tag, token, pending, out)
    }

    /// Puts the content that begins with this token, a scalar if `IS_SCALAR`. Its start is in the event
    /// already.
    #[inline(always)]
    fn put_content_of<const IS_SCALAR: bool>(
        &mut self,
        tag: Option<String>,
        token: &mut yaml_token_t,
        pending: &mut Pending,
        out: &mut yaml_event_t,
    ) -> Step
        requires scalar { IS_SCALAR ≡ true → token_type token.old.content ≡ YAML_SCALAR_TOKEN }
        requires start { out.old.start_mark ≡ pending.old.reading.start_mark }
        ensures puts { (o : Progressed) (h : Texts) → IsContent o h pending.old.properties.anchor
            (option_map string_bytes tag) token.old pending.old.reading self.old
            → Steps o (result_of result pending.new out.new token.new self.new) self.new
            × (result ≡ Step.Wants → ⊥) }
        ensures grows { result ≡ Step.Failed → self.new.fault.error ≡ yaml_error_type_t.YAML_MEMORY_ERROR
            → opens_at (place_of pending.old.reading.place) (token_type token.old.content) ≡ true }
        ensures handle { result ≡ Step.Failed → held_handle pending.new ≡ held_handle pending.old }
    {
        let end_mark = pending.reading.end_mark;
        match self.lead_content::<IS_SCALAR>(token, pending) {
            Action::Scalar => {
                self.put_scalar_after(tag, token, pending, out);
                Step::Given
            }
            Action::EmptyHead => {
                self.put_empty_after(tag, &end_mark, pending, out);
                Step::GivenBefore
            }
            Action::IndentlessSequence => {
                self.put_indentless(tag, token, pending, out);
                Step::GivenBefore
            }
            Action::FullMarks => self.fail_out_of_memory(),
            Action::Failed => self.set_problem(
                pending.reading.problem,
                &token.start_mark,
                &token.start_mark,
            ),
            _ => {
                self.put_opening(tag, token, pending, out);
                Step::Given
            }
        }
    }

    /// The full tag of a node whose properties were read, if it has one.
    #[inline(always)]
    fn take_tag(&mut self, pending: &mut Pending) -> Result<Option<String>, yaml_error_type_t>
        ensures reading { pending.new.reading ≡ pending.old.reading }
        ensures anchor { pending.new.properties.anchor ≡ pending.old.properties.anchor }
        ensures handle { held_handle pending.new ≡ held_handle pending.old }
        ensures ok { OnOk result (self.new ≡ self.old) }
        ensures tag { IfOk result (λ g. ReadsTag
            (only_if (flag pending.old.reading.has_tag) pending.old.properties.tag) self.old
            (option_map string_bytes g)) }
        ensures err { IfErr result (λ e. RefusesTag
            (only_if (flag pending.old.reading.has_tag) pending.old.properties.tag)
            pending.old.reading.start_mark pending.old.reading.tag_mark self.old e self.new) }
    {
        if pending.reading.has_tag == 0 {
            return Ok(None);
        }
        let reading = &pending.reading;
        match &mut pending.properties.tag {
            None => Ok(None),
            Some(read) => Ok(Some(self.resolve_tag(read, &reading.start_mark, &reading.tag_mark)?)),
        }
    }

    /// Does a step of the parser without texts, after a node's properties. Returns `FullMarks` if there is no
    /// memory for a mark.
    #[inline(always)]
    fn lead_content<const IS_SCALAR: bool>(
        &mut self,
        token: &yaml_token_t,
        pending: &mut Pending,
    ) -> Action
        requires scalar { IS_SCALAR ≡ true → token_type token.now.content ≡ YAML_SCALAR_TOKEN }
        ensures led { (o : Progressed) (h : Texts) (a g : Option (List ℕ))
            → IsContent o h a g token.now pending.old.reading self.old
            → SaysContent o h a g token.now result pending.old.reading pending.new.reading self.new }
        ensures fits { FitsContent result (token_type token.now.content) pending.new.reading }
        ensures texts { pending.new ≡ record pending.old { reading = pending.new.reading } }
        ensures full { result ≡ Action.FullMarks
            → opens_at (place_of pending.old.reading.place) (token_type token.now.content) ≡ true }
        ensures undone { result ≡ Action.FullMarks → (self.new ≡ self.old) × (pending.new ≡ pending.old) }
    {
        let kind = if IS_SCALAR {
            YAML_SCALAR_TOKEN
        } else {
            token.type_()
        };
        match self.lead_content_within(kind, token, pending) {
            Action::FullMarks => self.lead_content_again(token, pending),
            led => led,
        }
    }

    /// Does the step for which the stack of marks had no room, once it has grown.
    #[cold]
    #[inline(never)]
    fn lead_content_again(&mut self, token: &yaml_token_t, pending: &mut Pending) -> Action
        requires full { opens_at (place_of pending.old.reading.place) (token_type token.now.content) ≡ true }
        requires fits { FitsContent Action.FullMarks (token_type token.now.content) pending.old.reading }
        ensures led { (o : Progressed) (h : Texts) (a g : Option (List ℕ))
            → IsContent o h a g token.now pending.old.reading self.old
            → SaysContent o h a g token.now result pending.old.reading pending.new.reading self.new }
        ensures fits { FitsContent result (token_type token.now.content) pending.new.reading }
        ensures texts { pending.new ≡ record pending.old { reading = pending.new.reading } }
        ensures full { result ≡ Action.FullMarks
            → opens_at (place_of pending.old.reading.place) (token_type token.now.content) ≡ true }
        ensures undone { result ≡ Action.FullMarks → (self.new ≡ self.old) × (pending.new ≡ pending.old) }
    {
        if !self.automaton.grow(Action::FullMarks) {
            return Action::FullMarks;
        }
        self.lead_content_within(token.type_(), token, pending)
    }

    /// Does the step, or nothing if the stack of marks has no room.
    #[inline(always)]
    fn lead_content_within(
        &mut self,
        kind: yaml_token_type_t,
        token: &yaml_token_t,
        pending: &mut Pending,
    ) -> Action
        requires kind { kind ≡ token_type token.now.content }
        ensures led { (o : Progressed) (h : Texts) (a g : Option (List ℕ))
            → IsContent o h a g token.now pending.old.reading self.old
            → SaysContent o h a g token.now result pending.old.reading pending.new.reading self.new }
        ensures fits { FitsContent result (token_type token.now.content) pending.new.reading }
        ensures texts { pending.new ≡ record pending.old { reading = pending.new.reading } }
        ensures full { result ≡ Action.FullMarks
            → opens_at (place_of pending.old.reading.place) (token_type token.now.content) ≡ true }
        ensures undone { result ≡ Action.FullMarks → (self.new ≡ self.old) × (pending.new ≡ pending.old) }
    {
        self.automaton.automaton.content_after(
            &mut pending.reading,
            self.automaton.states.as_slice(),
            self.automaton.marks.as_mut_slice(),
            &Token {
                kind,
                start_mark: &token.start_mark,
                end_mark: &token.end_mark,
            },
        )
    }

    /// Puts a scalar after properties.
    #[inline(always)]
    fn put_scalar_after(
        &mut self,
        tag: Option<String>,
        token: &mut yaml_token_t,
        pending: &mut Pending,
        out: &mut yaml_event_t,
    )
        requires scalar { token_type token.old.content ≡ YAML_SCALAR_TOKEN }
        ensures puts { (end : yaml_mark_t) → PutsContent pending.old.properties.anchor (option_map
            string_bytes tag) out.old.start_mark end Action.Scalar token.old pending.old.reading self.old
            Step.Given token.new pending.new out.new self.new }
    {
        out.end_mark = token.end_mark;
        if let unnamed_yaml_token_t_data::Scalar(scalar) = &mut token.content {
            let anchor = &mut pending.properties.anchor;
            if tag.is_none() {
                put_anchored_scalar(&mut self.spare, anchor, scalar, &mut out.content);
            } else {
                put_scalar(&mut self.spare, anchor, tag, scalar, &mut out.content);
            }
        }
    }

    /// Puts a node with these marks into `out`. What its earlier content held is dropped, except one text.
    #[inline(always)]
    fn put_node(
        &mut self,
        content: unnamed_yaml_event_t_data,
        end_mark: &yaml_mark_t,
        out: &mut yaml_event_t,
    )
        ensures same { self.new ≡ self.old }
        ensures put { out.new ≡ event content out.old.start_mark end_mark.now }
    {
        make_light(&mut self.spare, &mut out.content);
        put_over(&mut out.content, content);
        out.end_mark = *end_mark;
    }

    /// Puts a node of properties alone.
    #[inline(never)]
    fn put_empty_after(
        &mut self,
        tag: Option<String>,
        end_mark: &yaml_mark_t,
        pending: &mut Pending,
        out: &mut yaml_event_t,
    )
        ensures puts { (t : yaml_token_t) → PutsContent pending.old.properties.anchor (option_map string_bytes
            tag) out.old.start_mark end_mark.now Action.EmptyHead t pending.old.reading self.old
            Step.GivenBefore t pending.new out.new self.new }
    {
        let implicit = is_missing(&tag);
        let text = String::new(self.allocator());
        let anchor = take_anchor(pending);
        let content = plain_scalar(anchor, tag, text, implicit);
        self.put_node(content, end_mark, out);
    }

    /// Puts the start of an indentless sequence after properties.
    #[inline(never)]
    fn put_indentless(
        &mut self,
        tag: Option<String>,
        token: &yaml_token_t,
        pending: &mut Pending,
        out: &mut yaml_event_t,
    )
        ensures puts { (end : yaml_mark_t) → PutsContent pending.old.properties.anchor (option_map
            string_bytes tag) out.old.start_mark end Action.IndentlessSequence token.now pending.old.reading
            self.old Step.GivenBefore token.now pending.new out.new self.new }
    {
        let style = yaml_sequence_style_t::YAML_BLOCK_SEQUENCE_STYLE;
        let anchor = take_anchor(pending);
        let content = sequence_start(anchor, tag, style);
        self.put_node(content, &token.end_mark, out);
    }

    /// Puts the start of a collection after properties.
    #[inline(never)]
    fn put_opening(
        &mut self,
        tag: Option<String>,
        token: &yaml_token_t,
        pending: &mut Pending,
        out: &mut yaml_event_t,
    )
        ensures puts { (led : Action) (end : yaml_mark_t) → IsOpening led → FitsContent led (token_type
            token.now.content) pending.old.reading → PutsContent pending.old.properties.anchor (option_map
            string_bytes tag) out.old.start_mark end led token.now pending.old.reading self.old Step.Given
            token.now pending.new out.new self.new }
    {
        let anchor = take_anchor(pending);
        let content = collection_start(anchor, tag, &token.content);
        self.put_node(content, &token.end_mark, out);
    }
}
