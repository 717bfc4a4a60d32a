//! The stream and its documents, with their directives.
ghost use Rattle.std.specs.Prelude.{◌≡◌, ◌++◌, ◌∷◌, [], None, Some, Err, IfOk, OnOk, OnErr};
ghost use Rattle.std.specs.Prelude.{false, true};
ghost use Rattle.libyaml_types.specs.Fault.{memory_fault};
ghost use Rattle.libyaml_types.specs.declared.token.unnamed_yaml_token_t_data.TheVariants as tok;
ghost use Rattle.libyaml_types.specs.declared.event.unnamed_yaml_event_t_data.TheVariants as ev;
ghost use Rattle.libyaml_types.specs.Events.{zero_mark};
ghost use Rattle.libyaml_types.specs.Types.{token_type};
ghost use Rattle.libyaml_grammar.specs.grammar.Events.{event};
ghost use Rattle.libyaml_grammar.specs.grammar.Order.{is_accepted};
ghost use Rattle.libyaml_automaton.specs.Numbers.{next_of};
ghost use Rattle.libyaml_automaton.specs.Fits.{FitsDocument, Documents};
ghost use Rattle.libyaml_automaton.specs.Growth.{stack_part_of};
ghost use Rattle.libyaml_events.specs.machine.Config.{with_fault};
ghost use Rattle.libyaml_events.specs.machine.Machine.{document_end, document_start, fault_with};
ghost use Rattle.libyaml_events.specs.machine.Machine.{is_accepted_in, step, was_declared};
ghost use Rattle.libyaml_events.specs.machine.Steps.{Steps, declared_unless};
ghost use Rattle.libyaml_events.specs.machine.Outcomes.{directive_texts, result_of, wanted};
ghost use Rattle.libyaml_events.specs.machine.Growth.{may_grow};
ghost use Rattle.libyaml_events.specs.automaton.AutomatonResults.{IsPutDocument, FollowsAutomatonInDocuments};
ghost use Rattle.libyaml_events.specs.automaton.AutomatonResults.{PutsDocument};
ghost use Rattle.libyaml_events.specs.automaton.View.{Ready};

use crate::parser::TokenParser;
use crate::pending::{DirectivesHeld, Pending};
use crate::states::give;
use crate::step::Step;
use libyaml_automaton::{Action, Next};
use libyaml_types::{
    ZERO_MARK, unnamed_yaml_event_t_data, unnamed_yaml_event_t_data_document_end,
    unnamed_yaml_event_t_data_document_start, unnamed_yaml_event_t_data_stream_start,
    unnamed_yaml_token_t_data, unnamed_yaml_token_t_data_stream_start,
    unnamed_yaml_token_t_data_tag_directive, unnamed_yaml_token_t_data_version_directive,
    yaml_error_type_t, yaml_event_t, yaml_mark_t, yaml_tag_directive_t, yaml_token_t,
    yaml_token_type_t, yaml_version_directive_t,
};
use std::alloc::Global;
use std::mem;

/// Whether documents of this version are parsed: YAML 1.1 and 1.2.
#[inline]
fn is_accepted(version: &yaml_version_directive_t) -> bool
    ensures { result ≡ is_accepted version.now.major version.now.minor }
{
    version.major == 1 && (version.minor == 1 || version.minor == 2)
}

/// Returns the start of a document without directives.
#[inline(always)]
fn document_start(alloc: Global) -> unnamed_yaml_event_t_data
    ensures { result ≡ document_start None [] true }
{
    let event = unnamed_yaml_event_t_data_document_start {
        version_directive: None,
        tag_directives: Vec::new(alloc),
        implicit: true,
    };
    unnamed_yaml_event_t_data::DocumentStart(event)
}

/// Puts the start of a document without directives.
#[inline(never)]
fn put_document_start(alloc: Global, content: &mut unnamed_yaml_event_t_data)
    ensures { content.new ≡ document_start None [] true }
{
    match content {
        unnamed_yaml_event_t_data::DocumentEnd(_) => {
            *content = document_start(alloc);
        }
        unnamed_yaml_event_t_data::StreamStart(_) => {
            *content = document_start(alloc);
        }
        unnamed_yaml_event_t_data::NoEvent => {
            *content = document_start(alloc);
        }
        _ => replace_by_document_start(alloc, content),
    }
}

/// Puts the start of a document without directives in place of a content that is to be dropped.
#[inline(never)]
fn replace_by_document_start(alloc: Global, content: &mut unnamed_yaml_event_t_data)
    ensures { content.new ≡ document_start None [] true }
{
    *content = document_start(alloc);
}

/// Puts the end of a document.
#[inline(never)]
fn put_document_end(implicit: bool, content: &mut unnamed_yaml_event_t_data)
    ensures { content.new ≡ document_end implicit }
{
    let event = unnamed_yaml_event_t_data_document_end { implicit };
    *content = unnamed_yaml_event_t_data::DocumentEnd(event);
}

/// Puts the stream's start into `out`.
#[inline(never)]
fn put_stream_start(token: &yaml_token_t, out: &mut yaml_event_t)
    ensures { (s : unnamed_yaml_token_t_data_stream_start) → token.now.content ≡ tok.StreamStart s
        → out.new ≡ event (ev.StreamStart (record { encoding = s.encoding })) token.now.start_mark
        token.now.start_mark }
{
    if let unnamed_yaml_token_t_data::StreamStart(start) = &token.content {
        let event = unnamed_yaml_event_t_data_stream_start {
            encoding: start.encoding,
        };
        give(
            out,
            unnamed_yaml_event_t_data::StreamStart(event),
            token.start_mark,
            token.start_mark,
        );
    }
}

/// Puts the stream's end into `out`.
#[inline(never)]
fn put_stream_end(token: &yaml_token_t, out: &mut yaml_event_t)
    ensures { out.new ≡ event ev.StreamEnd token.now.start_mark token.now.end_mark }
{
    give(
        out,
        unnamed_yaml_event_t_data::StreamEnd,
        token.start_mark,
        token.end_mark,
    );
}

/// Holds the version of a VERSION-DIRECTIVE, and returns whether documents of it are parsed.
fn hold_version(token: &yaml_token_t, pending: &mut Pending) -> bool
    ensures accepted { result ≡ is_accepted_in token.now.content }
    ensures reading { pending.new.reading ≡ pending.old.reading }
    ensures held { (v : unnamed_yaml_token_t_data_version_directive)
        → token.now.content ≡ tok.VersionDirective v → pending.new ≡ record pending.old {
          directives = record pending.old.directives {
            version = Some (record { major = v.major; minor = v.minor });
          };
        } }
{
    match &token.content {
        unnamed_yaml_token_t_data::VersionDirective(version) => {
            let version = yaml_version_directive_t {
                major: version.major,
                minor: version.minor,
            };
            let is_accepted = is_accepted(&version);
            pending.directives.version = Some(version);
            is_accepted
        }
        _ => false,
    }
}

impl TokenParser {
    /// Does a step of the stream or its documents.
    #[inline(never)]
    pub(super) fn step_document(
        &mut self,
        token: &mut yaml_token_t,
        pending: &mut Pending,
        out: &mut yaml_event_t,
    ) -> Step
        requires ready { Ready pending.old self.old }
        requires documents { stack_part_of (next_of pending.old.reading.next) ≡ Documents }
        ensures steps { Steps (step (wanted pending.old) self.old token.old)
            (result_of result pending.new out.new token.new self.new) self.new }
        ensures ready { result ≡ Step.Wants → Ready pending.new self.new }
        ensures untagged { (wanted pending.old).texts.tag ≡ None }
        ensures grows { result ≡ Step.Failed → self.new.fault.error ≡ yaml_error_type_t.YAML_MEMORY_ERROR
            → may_grow (wanted pending.old) self.old token.old.content ≡ true }
    {
        self.forget_directives(pending);
        match self.step_automaton_in_documents(token, pending) {
            Action::FullStates => self.step_document_again(token, pending, out),
            led => self.put_document(led, token, pending, out),
        }
    }

    /// Does such a step after the stacks have grown.
    #[cold]
    #[inline(never)]
    fn step_document_again(
        &mut self,
        token: &mut yaml_token_t,
        pending: &mut Pending,
        out: &mut yaml_event_t,
    ) -> Step
        requires ready { Ready pending.old self.old }
        requires documents { stack_part_of (next_of pending.old.reading.next) ≡ Documents }
        requires declared { (wanted pending.old).texts ≡ directive_texts pending.old.directives }
        requires grows { may_grow (wanted pending.old) self.old token.old.content ≡ true }
        ensures steps { Steps (step (wanted pending.old) self.old token.old)
            (result_of result pending.new out.new token.new self.new) self.new }
        ensures ready { result ≡ Step.Wants → Ready pending.new self.new }
    {
        if !self.automaton.grow(Action::FullStates) {
            return self.fail_out_of_memory();
        }
        match self.step_automaton_in_documents(token, pending) {
            Action::FullStates => self.fail_out_of_memory(),
            led => self.put_document(led, token, pending, out),
        }
    }

    /// Forgets the directives of an earlier document.
    #[inline(always)]
    fn forget_directives(&mut self, pending: &mut Pending)
        requires { stack_part_of (next_of pending.old.reading.next) ≡ Documents }
        ensures same { self.new ≡ self.old }
        ensures declared { (wanted pending.new).texts ≡ directive_texts pending.new.directives }
        ensures reading { pending.new.reading ≡ pending.old.reading }
        ensures wanted { wanted pending.new ≡ wanted pending.old }
    {
        if pending.reading.next == Next::AfterDirective.number() {
            return;
        }
        if pending.directives.version.is_some() || !pending.directives.tag_directives.is_empty() {
            pending.directives = DirectivesHeld {
                version: None,
                tag_directives: Vec::new(self.allocator()),
            };
        }
    }

    /// Does a step of the parser without texts.
    #[inline(always)]
    fn step_automaton_in_documents(&mut self, token: &yaml_token_t, pending: &mut Pending) -> Action
        requires ready { Ready pending.old self.old }
        requires documents { stack_part_of (next_of pending.old.reading.next) ≡ Documents }
        requires declared { (wanted pending.old).texts ≡ directive_texts pending.old.directives }
        ensures led { FollowsAutomatonInDocuments (step (wanted pending.old) self.old token.now)
            (wanted pending.old).texts token.now result pending.new self.new }
        ensures fits { FitsDocument result (token_type token.now.content) pending.new.reading self.new.state }
        ensures texts { pending.new ≡ record pending.old { reading = pending.new.reading } }
        ensures undone { result ≡ Action.FullStates → Ready pending.new self.new
            × (wanted pending.new ≡ wanted pending.old) × (self.new ≡ self.old)
            × (pending.new.reading.next ≡ pending.old.reading.next) }
        ensures grows { result ≡ Action.FullStates
            → may_grow (wanted pending.old) self.old token.now.content ≡ true }
        ensures handle { result ≡ Action.AsksHandle
            → was_declared self.new.handles token.now.content ≡ false
            → may_grow (wanted pending.old) self.old token.now.content ≡ true }
    {
        self.automaton.automaton.document_step::<false>(
            &mut pending.reading,
            self.automaton.states.as_mut_slice(),
            token.type_(),
            &token.start_mark,
        )
    }

    /// Puts the event that the step led to, with its texts.
    #[inline(always)]
    fn put_document(
        &mut self,
        led: Action,
        token: &mut yaml_token_t,
        pending: &mut Pending,
        out: &mut yaml_event_t,
    ) -> Step
        requires put { IsPutDocument led }
        requires fits { FitsDocument led (token_type token.old.content) pending.old.reading
            self.old.state }
        ensures puts { PutsDocument led token.old pending.old self.old result token.new pending.new out.new
            self.new }
        ensures grows { result ≡ Step.Failed → self.new.fault.error ≡ yaml_error_type_t.YAML_MEMORY_ERROR
            → (led ≡ Action.AsksHandle) × (was_declared self.old.handles token.old.content ≡ false) }
    {
        match led {
            Action::Wants => Step::Wants,
            Action::StreamStart => {
                put_stream_start(token, out);
                Step::Given
            }
            Action::StreamEnd => {
                put_stream_end(token, out);
                Step::Given
            }
            Action::ImplicitDocument => {
                out.start_mark = token.start_mark;
                out.end_mark = token.start_mark;
                put_document_start(self.allocator(), &mut out.content);
                Step::GivenBefore
            }
            Action::ExplicitDocument => {
                self.put_explicit_document(token, pending, out);
                Step::Given
            }
            Action::DocumentEnd => {
                self.forget_handles();
                out.start_mark = token.start_mark;
                out.end_mark = token.end_mark;
                put_document_end(false, &mut out.content);
                Step::Given
            }
            Action::ImplicitDocumentEnd => {
                self.forget_handles();
                out.start_mark = token.start_mark;
                out.end_mark = token.start_mark;
                put_document_end(true, &mut out.content);
                Step::GivenBefore
            }
            Action::AsksVersion => self.take_version(token, pending),
            Action::AsksHandle => self.take_handle(token, pending),
            Action::FailedDocument => {
                self.set_document_problem(pending.reading.problem, &token.start_mark)
            }
            _ => unreachable!(),
        }
    }

    /// Puts the start of a document with its directives into `out`.
    #[inline(always)]
    fn put_explicit_document(
        &mut self,
        token: &yaml_token_t,
        pending: &mut Pending,
        out: &mut yaml_event_t,
    )
        ensures out { out.new ≡ event (document_start pending.old.directives.version
            pending.old.directives.tag_directives false) pending.old.reading.start_mark token.now.end_mark }
        ensures same { self.new ≡ self.old }
    {
        out.start_mark = pending.reading.start_mark;
        out.end_mark = token.end_mark;
        put_document_start(self.allocator(), &mut out.content);
        if let unnamed_yaml_event_t_data::DocumentStart(event) = &mut out.content {
            event.implicit = false;
            event.version_directive = pending.directives.version.take();
            mem::swap(
                &mut event.tag_directives,
                &mut pending.directives.tag_directives,
            );
        }
    }

    /// Keeps the error of this number, which has no context.
    #[cold]
    #[inline(never)]
    fn set_document_problem(&mut self, problem: u8, mark: &yaml_mark_t) -> Step
        ensures failed { result ≡ Step.Failed }
        ensures error { self.new.fault.error ≡ yaml_error_type_t.YAML_PARSER_ERROR }
        ensures kept { self.new ≡ with_fault self.old
            (fault_with (record { problem = problem; context_mark = zero_mark; mark = mark.now })) }
    {
        self.set_problem(problem, &ZERO_MARK, mark)
    }

    /// Takes a VERSION-DIRECTIVE, the first of its document.
    #[inline(never)]
    fn take_version(&mut self, token: &yaml_token_t, pending: &mut Pending) -> Step
        requires version { token_type token.now.content ≡ yaml_token_type_t.YAML_VERSION_DIRECTIVE_TOKEN }
        ensures puts { (out : yaml_event_t) → PutsDocument Action.AsksVersion token.now pending.old
            self.old result token.now pending.new out self.new }
        ensures error { result ≡ Step.Failed → self.new.fault.error ≡ yaml_error_type_t.YAML_PARSER_ERROR }
    {
        let is_accepted = hold_version(token, pending);
        match self
            .automaton
            .version_directive(&mut pending.reading, is_accepted)
        {
            Action::Wants => Step::Wants,
            _ => self.set_document_problem(pending.reading.problem, &token.start_mark),
        }
    }

    /// Takes a TAG-DIRECTIVE: its handle may be declared once.
    #[inline(never)]
    fn take_handle(&mut self, token: &mut yaml_token_t, pending: &mut Pending) -> Step
        requires directive { token_type token.old.content ≡ yaml_token_type_t.YAML_TAG_DIRECTIVE_TOKEN }
        ensures puts { (out : yaml_event_t) → PutsDocument Action.AsksHandle token.old pending.old
            self.old result token.new pending.new out self.new }
        ensures grows { result ≡ Step.Failed → self.new.fault.error ≡ yaml_error_type_t.YAML_MEMORY_ERROR
            → was_declared self.old.handles token.old.content ≡ false }
    {
        let was_declared = match self.declare_handle(token) {
            Ok(was_declared) => was_declared,
            Err(_) => return Step::Failed,
        };
        match self
            .automaton
            .tag_directive(&mut pending.reading, was_declared)
        {
            Action::Wants => self.hold_directive(token, pending),
            _ => self.set_document_problem(pending.reading.problem, &token.start_mark),
        }
    }

    /// Declares the handle of a TAG-DIRECTIVE, unless it is declared already, and returns whether it was.
    fn declare_handle(&mut self, token: &yaml_token_t) -> Result<bool, yaml_error_type_t>
        ensures before { IfOk result (λ b. b ≡ was_declared self.old.handles token.now.content) }
        ensures ok { IfOk result (λ b. self.new ≡ record self.old {
          handles = declared_unless b self.old.handles token.now.content;
        }) }
        ensures err { OnErr result ((result ≡ Err yaml_error_type_t.YAML_MEMORY_ERROR)
            × (self.new ≡ with_fault self.old memory_fault)) }
        ensures grows { OnErr result (was_declared self.old.handles token.now.content ≡ false) }
    {
        match &token.content {
            unnamed_yaml_token_t_data::TagDirective(directive) => {
                self.declare(&directive.handle, &directive.prefix)
            }
            _ => Ok(false),
        }
    }

    /// Holds the texts of a TAG-DIRECTIVE.
    fn hold_directive(&mut self, token: &mut yaml_token_t, pending: &mut Pending) -> Step
        ensures given { result ≡ Step.Given → ⊥ }
        ensures before { result ≡ Step.GivenBefore → ⊥ }
        ensures same { result ≡ Step.Wants → self.new ≡ self.old }
        ensures held { (g : unnamed_yaml_token_t_data_tag_directive) → token.old.content ≡ tok.TagDirective g
            → result ≡ Step.Wants → pending.new ≡ record pending.old {
              directives = record pending.old.directives {
                tag_directives = pending.old.directives.tag_directives
                    ++ record { handle = g.handle; prefix = g.prefix } ∷ [];
              };
            } }
        ensures failed { result ≡ Step.Failed → self.new ≡ with_fault self.old memory_fault }
    {
        if let unnamed_yaml_token_t_data::TagDirective(directive) = &mut token.content {
            let directive = yaml_tag_directive_t {
                handle: mem::replace(&mut directive.handle, String::new(self.allocator())),
                prefix: mem::replace(&mut directive.prefix, String::new(self.allocator())),
            };
            if pending.directives.tag_directives.push(directive).is_err() {
                return self.fail_out_of_memory();
            }
        }
        Step::Wants
    }
}
