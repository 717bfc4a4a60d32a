//! A parser that is handed its tokens.
ghost use Rattle.std.specs.Prelude.{◌≡◌, ◌≤◌, ◌<◌, ◌+◌, [], IfErr, IfOk, length, true, false};
ghost use Rattle.std.specs.Vec.{vec_capacity, vec_len};
ghost use Rattle.libyaml_types.specs.Fault.{fault_of, no_fault};
ghost use Rattle.libyaml_types.specs.declared.enums.yaml_token_type_t.{yaml_token_type_t};
ghost use Rattle.libyaml_automaton.specs.Acceptable.{acceptable, has};
ghost use Rattle.libyaml_events.specs.machine.Outcomes.{wanted};
ghost use Rattle.libyaml_events.specs.machine.Config.{config_of, ended_or_failed, is_fault};
ghost use Rattle.libyaml_events.specs.machine.StepsOnto.{StepsOnto};
ghost use Rattle.libyaml_events.specs.automaton.View.{Ready};
ghost use Rattle.libyaml_grammar.specs.grammar.ValidLists.{IsViablePrefix};
ghost use Rattle.libyaml_events.specs.parsers.Stages.{open_collections, stage_of};
ghost use Rattle.libyaml_events.specs.sources.Acceptable.{AreAcceptable, Complete};
ghost use Rattle.libyaml_events.specs.sources.Pushed.{has_stopped};
ghost use Rattle.libyaml_events.specs.sources.Pushed.{new_push_parser, push_parser_at, ForPushed, Pushed};
ghost use Rattle.libyaml_events.specs.sources.Pushed.{fault_in};
ghost use Rattle.libyaml_events.specs.sources.Pushed.{RemembersPushes};
ghost use Rattle.libyaml_events.specs.sources.Pushes.{Pushes, Takes, done_of};

use crate::event_kinds::no_event;
use crate::parser::TokenParser;
use crate::pending::Pending;
use crate::step::Step;
use libyaml_automaton::TokenTypes;
use libyaml_types::{
    yaml_error_type_t, yaml_event_t, yaml_parser_t_prefix, yaml_token_t, yaml_token_type_t,
};
use std::alloc::{AllocError, Global};
use std::marker::Model;

/// Names the steps whose event is put in place (`TokenParser::step`).
pub(crate) struct InPlace;

/// Names those whose event is put aside first.
pub(crate) struct Aside;

/// A parser that is handed one token after another.
#[derive(Drop)]
pub struct yaml_push_parser_t {
    token_parser: TokenParser,
    /// What was read of a node or of directives, and which function takes the next token.
    pending: Pending,
}

impl Model for yaml_push_parser_t {
    ghost use Rattle.std.specs.Prelude.{◌≡◌, false};
    ghost use Rattle.std.specs.Coded.{codes};
    ghost use Rattle.libyaml_events.specs.machine.Outcomes.{wanted};
    ghost use Rattle.libyaml_events.specs.machine.Config.{handles_code, ended_or_failed};
    ghost use Rattle.libyaml_events.specs.automaton.View.{Ready};
    ghost use Rattle.libyaml_events.specs.sources.Pushed.{PushParser, RemembersPushes, push_parser_at};

    ghost Value = { PushParser };

    ghost coded = { Prim.hlevel (codes, handles_code) };

    ghost view = { λ p. push_parser_at (wanted p.pending) p.token_parser };

    ghost invariant = { λ p. (ended_or_failed p.token_parser ≡ false → Ready p.pending p.token_parser)
        × RemembersPushes (push_parser_at (wanted p.pending) p.token_parser) };
}

impl yaml_push_parser_t {
    /// Returns a parser at a stream's start, without an allocation.
    pub fn new(alloc: Global) -> Self
        ensures value { result ≡ new_push_parser }
        ensures begins { Pushed result [] [] }
    {
        yaml_push_parser_t {
            token_parser: TokenParser::new(alloc),
            pending: Pending::new(alloc),
        }
    }

    /// Takes a token, and appends the events that it determines: at most four. After the stream end event or
    /// an error it takes none.
    ///
    /// # Errors
    ///
    /// An error of the grammar, or out of memory if an allocation failed. The parser keeps the error for
    /// good, and each further call returns it.
    #[inline(always)]
    pub fn push(
        &mut self,
        token: yaml_token_t,
        events: &mut Vec<yaml_event_t>,
    ) -> Result<(), yaml_parser_t_prefix>
        ensures pushes { Pushes (vec_capacity events.old ≤ vec_len events.new) self.old token
            events.old.items (done_of result) self.new events.new.items }
        ensures error { IfErr result (λ f. fault_of f ≡ fault_in self.new) }
    {
        let mut token = token;
        self.push_from(&mut token, events)
    }

    /// Takes a token like `push`, but from a variable: a loop can reuse one token without moving it.
    /// Afterwards the value of `token` is unspecified.
    ///
    /// # Errors
    ///
    /// Those of `push`.
    #[inline(always)]
    pub fn push_from(
        &mut self,
        token: &mut yaml_token_t,
        events: &mut Vec<yaml_event_t>,
    ) -> Result<(), yaml_parser_t_prefix>
        ensures pushes { Pushes (vec_capacity events.old ≤ vec_len events.new) self.old token.old
            events.old.items (done_of result) self.new events.new.items }
        ensures error { IfErr result (λ f. fault_of f ≡ fault_in self.new) }
    {
        if self.take_from(token, events).is_err() {
            return Err(*self.prefix());
        }
        Ok(())
    }

    /// Takes the token in this variable, and returns the kind of an error: two scalars. The whole error is
    /// put in its place by the caller's own code, into which `push` and `push_from` are inlined.
    fn take_from(
        &mut self,
        token: &mut yaml_token_t,
        events: &mut Vec<yaml_event_t>,
    ) -> Result<(), yaml_error_type_t>
        ensures { Pushes (vec_capacity events.old ≤ vec_len events.new) self.old token.old events.old.items
            result self.new events.new.items }
    {
        if self.token_parser.is_over() {
            return self.token_parser.kept_error();
        }
        self.token_parser.feed(token, &mut self.pending, events)
    }

    /// Returns which types of token may come next: those with some token of which the tokens pushed so far
    /// still begin a valid list. After the stream's end or an error none may.
    ///
    /// Of a VERSION-DIRECTIVE, a TAG-DIRECTIVE or a TAG such a token has an accepted version, a handle that
    /// is not declared yet, or a handle that is defined. After a TAG whose handle is not defined, which is
    /// an error only at a later token, the types are those that may follow it if it were.
    pub fn expected(&self) -> TokenTypes
        ensures acceptable { ForPushed self.now (λ tokens _. AreAcceptable result tokens) }
        ensures stopped { has_stopped self.now ≡ true → (k : yaml_token_type_t) → has result k ≡ false }
    {
        if self.token_parser.is_over() {
            return TokenTypes::none();
        }
        self.token_parser.expected(&self.pending)
    }

    /// Returns the types of the tokens that complete those pushed so far to a valid list, in order, if they
    /// begin one: the stream's start, a document's start or a node, if one is due, then what ends each open
    /// collection, and the stream's end. After the stream's end or an error it returns none.
    ///
    /// A scalar among them is empty and plain; marks may be any.
    ///
    /// # Errors
    ///
    /// If an allocation failed.
    pub fn completion(&self, alloc: Global) -> Result<Vec<yaml_token_type_t>, AllocError>
        ensures completes { IfOk result (λ types. ForPushed self.now (λ tokens _. IsViablePrefix tokens
            → Complete types.items tokens)) }
        ensures few { IfOk result (λ types. ForPushed self.now (λ tokens events. IsViablePrefix tokens
            → length types.items ≤ open_collections (stage_of events) + 2)) }
        ensures stopped { has_stopped self.now ≡ true → IfOk result (λ types. types.items ≡ []) }
    {
        if self.token_parser.is_over() {
            return Ok(Vec::new(alloc));
        }
        self.token_parser.completion(alloc, &self.pending)
    }

    /// Does nothing. A parser that keeps no error has a history: some pushes lead to a parser like it.
    pub fn remembered(&self)
        ensures { RemembersPushes self.now }
    {
        let _ = &self.token_parser;
    }

    /// Returns the error that the parser keeps, or `NO_FAULT` if it keeps none.
    pub fn prefix(&self) -> &yaml_parser_t_prefix
        ensures kept { fault_of result.now ≡ fault_in self.now }
        ensures before_fault { ForPushed self.now (λ _ _. fault_of result.now ≡ no_fault) }
    {
        self.token_parser.kept_prefix()
    }
}

impl TokenParser {
    /// Returns which types of token may come next.
    fn expected(&self, pending: &Pending) -> TokenTypes
        ensures { (k : yaml_token_type_t) → has result k
            ≡ acceptable (wanted pending.now).next (config_of self.now) k }
    {
        self.automaton.expected(&pending.reading)
    }

    /// Takes the token in its variable, as long as it stays.
    fn feed(
        &mut self,
        token: &mut yaml_token_t,
        pending: &mut Pending,
        events: &mut Vec<yaml_event_t>,
    ) -> Result<(), yaml_error_type_t>
        requires running { ended_or_failed self.old ≡ false }
        requires agrees { Ready pending.old self.old }
        ensures kept { IfErr result (λ e. (e ≡ self.new.fault.error)
            × (is_fault self.new.fault.error ≡ true)) }
        ensures takes { Takes (vec_capacity events.old ≤ vec_len events.new)
            (push_parser_at (wanted pending.old) self.old) token.old events.old.items result
            (push_parser_at (wanted pending.new) self.new) events.new.items }
        ensures agrees { IfOk result (λ _. ended_or_failed self.new ≡ false → Ready pending.new self.new) }
    {
        loop {
            match self.step_onto(token, pending, events) {
                Step::Wants => return Ok(()),
                Step::Given => {
                    self.begin_call(pending);
                    return Ok(());
                }
                Step::GivenBefore => {}
                Step::Failed => return Err(self.fail()),
            }
            self.begin_call(pending);
            if self.is_over() {
                return Ok(());
            }
        }
    }

    /// Does a step, whose event is appended.
    #[inline(always)]
    fn step_onto(
        &mut self,
        token: &mut yaml_token_t,
        pending: &mut Pending,
        events: &mut Vec<yaml_event_t>,
    ) -> Step
        requires { Ready pending.old self.old }
        ensures steps { StepsOnto (vec_capacity events.old ≤ vec_len events.new) (wanted pending.old) self.old
            token.old events.old.items result token.new (wanted pending.new) self.new events.new.items }
        ensures capacity { vec_capacity events.old ≤ vec_capacity events.new }
        ensures ready { result ≡ Step.Wants → Ready pending.new self.new }
    {
        if events.len() < events.capacity() {
            return self.step_in_place(token, pending, events);
        }
        self.step_aside(token, pending, events)
    }

    /// Does a step in a place at the list's end, which stays if an event is given.
    #[inline(always)]
    fn step_in_place(
        &mut self,
        token: &mut yaml_token_t,
        pending: &mut Pending,
        events: &mut Vec<yaml_event_t>,
    ) -> Step
        requires ready { Ready pending.old self.old }
        requires room { vec_len events.old < vec_capacity events.old }
        ensures steps { StepsOnto (vec_capacity events.old ≤ vec_len events.new) (wanted pending.old) self.old
            token.old events.old.items result token.new (wanted pending.new) self.new events.new.items }
        ensures capacity { vec_capacity events.new ≡ vec_capacity events.old }
        ensures ready { result ≡ Step.Wants → Ready pending.new self.new }
    {
        let place = events.len();
        events.push_reserved(no_event());
        match self.step::<InPlace>(token, pending, &mut events[place]) {
            Step::Given => Step::Given,
            Step::GivenBefore => Step::GivenBefore,
            Step::Wants => {
                let _ = events.pop();
                Step::Wants
            }
            Step::Failed => {
                let _ = events.pop();
                Step::Failed
            }
        }
    }

    /// Does a step, and then makes room for its event.
    #[cold]
    #[inline(never)]
    fn step_aside(
        &mut self,
        token: &mut yaml_token_t,
        pending: &mut Pending,
        events: &mut Vec<yaml_event_t>,
    ) -> Step
        requires { Ready pending.old self.old }
        ensures steps { StepsOnto (vec_capacity events.old ≤ vec_len events.new) (wanted pending.old) self.old
            token.old events.old.items result token.new (wanted pending.new) self.new events.new.items }
        ensures capacity { vec_capacity events.old ≤ vec_capacity events.new }
        ensures ready { result ≡ Step.Wants → Ready pending.new self.new }
    {
        let mut event = no_event();
        let step = self.step::<Aside>(token, pending, &mut event);
        match step {
            Step::Wants => return Step::Wants,
            Step::Failed => return Step::Failed,
            Step::Given | Step::GivenBefore => {}
        }
        if events.push(event).is_err() {
            return self.fail_out_of_memory();
        }
        step
    }
}
