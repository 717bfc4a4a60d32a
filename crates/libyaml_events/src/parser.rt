//! The parser.
ghost use Rattle.std.specs.Prelude.{◌≡◌, ◌⊎◌, ◌||◌, [], pos, ◌≤ℤ◌, true, false, List, Option, Some};
ghost use Rattle.libyaml_types.specs.Fault.{Fault, fault_of, no_fault};
ghost use Rattle.libyaml_events.specs.machine.Config.{with_fault, ended_or_failed, is_between, is_fault};
ghost use Rattle.libyaml_events.specs.machine.Config.{start};
ghost use Rattle.libyaml_types.specs.Source.{Coming, coming};
ghost use Rattle.libyaml_grammar.specs.runs.Runs.{Ending, IsRun};
ghost use Rattle.libyaml_events.specs.parsers.Stages.{is_outside, stage_of};
ghost use Rattle.libyaml_events.specs.sources.History.{History, ForHistory, Remembers, new_parser};
ghost use Rattle.libyaml_events.specs.sources.History.{is_over, has_failed, kept_fault, keeping};
ghost use Rattle.libyaml_events.specs.sources.History.{between_documents};
ghost use Rattle.libyaml_events.specs.sources.RunToCome.{RunToCome, ForRun};
ghost use Rattle.libyaml_events.specs.sources.Naming.{is_undefined_handle};
ghost use Rattle.libyaml_events.specs.sources.Pushes.{done_by};
ghost use Rattle.libyaml_types.specs.declared.token.yaml_token_t.{yaml_token_t};
ghost use Rattle.libyaml_types.specs.declared.event.yaml_event_t.{yaml_event_t};

mod calls;
mod faults;
mod handles;
mod tokens;

use crate::automaton::AutomatonWithStacks;
use crate::entries::MaxEntries;
use crate::handle_table::HandleTable;
use crate::lookahead::Lookahead;
use crate::pending::Pending;
use libyaml_types::{
    NO_FAULT, yaml_error_type_t, yaml_parser_state_t, yaml_parser_t_prefix, yaml_token_source_t,
    yaml_token_t,
};
use std::alloc::Global;
use std::marker::Model;

/// A parser over a source of tokens.
///
/// libyaml: `yaml_parser_t`.
#[derive(Drop)]
pub struct yaml_parser_t<S> {
    pub(crate) token_parser: TokenParser,
    pub(crate) source: S,
    max_entries: MaxEntries,
    /// What a call has read of a node or of directives. It is a field so that no call has to make it.
    /// Between calls its value has no meaning.
    pub(crate) pending: Pending,
    pub(crate) lookahead: Lookahead,
}

impl<S> Model for yaml_parser_t<S> {
    ghost use Rattle.std.specs.Coded.{codes};
    ghost use Rattle.libyaml_events.specs.machine.Config.{Parser, handles_code, with_lookahead};
    ghost use Rattle.libyaml_events.specs.sources.History.{Remembers};

    ghost Value = { Parser S };

    ghost coded = { Prim.hlevel (codes, handles_code) };

    ghost view = { λ p. record {
      source = p.source;
      config = with_lookahead p.lookahead p.token_parser;
      max_entries = p.max_entries.number;
    } };

    ghost invariant = { λ p. Remembers (record {
      source = p.source;
      config = with_lookahead p.lookahead p.token_parser;
      max_entries = p.max_entries.number;
    }) };
}

/// What a parser keeps from one call to the next, beside its source and the lookahead.
#[derive(Drop)]
pub(crate) struct TokenParser {
    pub(crate) automaton: AutomatonWithStacks,
    handles: HandleTable,
    /// A text of an earlier event, whose memory a later token's text or full tag may take. Its value has no
    /// meaning.
    pub(crate) spare: String,
    prefix: yaml_parser_t_prefix,
    alloc: Global,
}

impl Model for TokenParser {
    ghost use Rattle.std.specs.Coded.{codes};
    ghost use Rattle.libyaml_types.specs.Fault.{fault_of};
    ghost use Rattle.libyaml_events.specs.machine.Config.{Machine, handles_code, config_with};

    ghost Value = { Machine };

    ghost coded = { Prim.hlevel (codes, handles_code) };

    ghost view = { λ p. config_with p.automaton p.handles (fault_of p.prefix) };
}

/// Returns a parser at the start of this source's stream, without an allocation.
///
/// libyaml: `yaml_parser_initialize` and `yaml_parser_set_input`.
pub fn yaml_parser_initialize<S>(alloc: Global, source: S) -> yaml_parser_t<S>
    ensures value { result ≡ new_parser source }
    ensures source { result.source ≡ source }
    ensures bound { result.max_entries ≡ pos 2147483647 }
    ensures no_fault { kept_fault result ≡ no_fault }
    ensures between { between_documents result ≡ true }
    ensures begins { History result [] [] }
    ensures running { is_over result ≡ false }
    // over a source that knows its tokens and the error that follows them, their whole run is to come
    ensures run_to_come { (known : S → Option Coming) (tokens : List yaml_token_t) (f : Fault)
        → known source ≡ Some (coming tokens f) → (events : List yaml_event_t) (ending : Ending)
        → IsRun tokens f events ending → RunToCome known result events ending }
{
    yaml_parser_t {
        source,
        token_parser: TokenParser::new(alloc),
        max_entries: MaxEntries::all(),
        pending: Pending::new(alloc),
        lookahead: Lookahead::new(),
    }
}

/// Consumes the parser and returns its source in its state after the last call.
///
/// A source that knew its tokens knows those that were not asked for (`laws::calls::source_left`).
///
/// libyaml: `yaml_parser_delete`.
pub fn yaml_parser_delete<S>(parser: yaml_parser_t<S>) -> S
    ensures { result ≡ parser.source }
{
    let yaml_parser_t { source, .. } = parser;
    source
}

/// Returns whether no document is open, or an error is kept.
///
/// A document is open from its start event until its end event.
pub fn yaml_parser_between_documents<S>(parser: &yaml_parser_t<S>) -> bool
    ensures value { result ≡ between_documents parser.now }
    ensures failed { has_failed parser.now ≡ true → result ≡ true }
    ensures by_events { ForHistory parser.now (λ _ given. result ≡ is_outside (stage_of given)) }
{
    parser.token_parser.stands_between_documents()
}

/// Sets how many entries each list of a loaded document may have.
///
/// `n` must be at least 1, and the parser must stand between documents (`yaml_parser_between_documents`).
pub fn yaml_parser_set_max_entries<S>(parser: &mut yaml_parser_t<S>, n: i32)
    requires at_least_one { pos 1 ≤ℤ n }
    requires between { between_documents parser.old ≡ true }
    ensures bound { parser.new ≡ record parser.old { max_entries = n } }
    // the history and the run stay
    ensures history { ForHistory parser.old (History parser.new) }
    ensures run_to_come { (known : S → Option Coming)
        → ForRun known parser.old (RunToCome known parser.new) }
{
    parser.max_entries = MaxEntries::new(n);
}

impl<S> yaml_parser_t<S> {
    /// Returns the error that the parser keeps, or `NO_FAULT` if it keeps none.
    ///
    /// libyaml: the fields of `yaml_parser_t` from `error` to `context_mark`.
    pub fn prefix(&self) -> &yaml_parser_t_prefix
        ensures kept { fault_of result.now ≡ kept_fault self.now }
        // before an error it is `NO_FAULT`
        ensures before_fault { ForHistory self.now (λ _ _. fault_of result.now ≡ no_fault) }
    {
        self.token_parser.kept_prefix()
    }

    /// Returns how many entries each list of a loaded document may have: 2,147,483,647 unless it was set.
    pub fn max_entries(&self) -> i32
        ensures value { result ≡ self.now.max_entries }
        ensures at_least_one { pos 1 ≤ℤ result }
    {
        self.max_entries.number()
    }

    /// Keeps an error of the loader for good: out of memory, or a composer error.
    ///
    /// The parser must not keep an error already.
    pub fn keep_fault(&mut self, fault: yaml_parser_t_prefix)
        requires first { has_failed self.old ≡ false }
        requires of_loader { (fault.error ≡ yaml_error_type_t.YAML_MEMORY_ERROR)
            ⊎ (fault.error ≡ yaml_error_type_t.YAML_COMPOSER_ERROR) }
        ensures kept { self.new ≡ keeping (fault_of fault) self.old }
        ensures fault { kept_fault self.new ≡ fault_of fault }
        ensures ended { is_over self.new ≡ true }
    {
        self.token_parser.keep_prefix(fault);
    }

    /// Returns whether the source may have to wait for its next token (`yaml_token_source_t::may_wait`).
    pub fn may_wait(&self) -> bool
    where
        S: yaml_token_source_t,
    {
        self.source.may_wait()
    }

    /// Does nothing. A parser that keeps no error has a history: some calls lead to a parser like it.
    pub fn remembered(&self)
        ensures { Remembers self.now }
    {
        let _ = &self.token_parser;
    }

    /// Returns whether no more events come.
    pub fn is_over(&self) -> bool
        ensures { result ≡ is_over self.now }
    {
        self.token_parser.is_over()
    }

    /// Returns the allocator of the parser's memory.
    pub fn allocator(&self) -> Global {
        self.token_parser.alloc
    }
}

impl TokenParser {
    /// Returns a machine at the start of a stream, without an allocation.
    #[inline(always)]
    pub(crate) fn new(alloc: Global) -> Self
        ensures { result ≡ start }
    {
        TokenParser {
            automaton: AutomatonWithStacks::new(alloc),
            handles: HandleTable::new(alloc),
            spare: String::new(alloc),
            prefix: NO_FAULT,
            alloc,
        }
    }

    /// Returns the error that is kept, or `NO_FAULT`.
    pub(crate) fn kept_prefix(&self) -> &yaml_parser_t_prefix
        ensures { fault_of result.now ≡ self.now.fault }
    {
        &self.prefix
    }

    /// Keeps an error.
    fn keep_prefix(&mut self, fault: yaml_parser_t_prefix)
        ensures { self.new ≡ with_fault self.old (fault_of fault) }
    {
        self.prefix = fault;
    }

    /// Returns the allocator of the parser's memory.
    pub(crate) fn allocator(&self) -> Global {
        self.alloc
    }

    /// Returns the kind of the error that is kept, if one is.
    pub(crate) fn kept_error(&self) -> Result<(), yaml_error_type_t>
        ensures { result ≡ done_by self.now.fault }
    {
        if self.has_failed() {
            return Err(self.prefix.error);
        }
        Ok(())
    }

    /// Returns whether an error is kept.
    fn has_failed(&self) -> bool
        ensures { result ≡ is_fault self.now.fault.error }
    {
        !matches!(self.prefix.error, yaml_error_type_t::YAML_NO_ERROR)
    }

    /// Returns whether the error that is kept is that of a tag handle which is not defined.
    pub(crate) fn has_undefined_handle(&self) -> bool
        ensures { result ≡ is_undefined_handle self.now.fault }
    {
        match self.prefix.problem {
            Some(problem) => {
                self.prefix.error == yaml_error_type_t::YAML_PARSER_ERROR
                    && problem == "found undefined tag handle"
            }
            None => false,
        }
    }

    /// Returns whether no document is open, or an error is kept.
    fn stands_between_documents(&self) -> bool
        ensures { result ≡ (is_fault self.now.fault.error || is_between self.now.state) }
    {
        self.has_failed()
            || matches!(
                self.automaton.state(),
                yaml_parser_state_t::YAML_PARSE_STREAM_START_STATE
                    | yaml_parser_state_t::YAML_PARSE_IMPLICIT_DOCUMENT_START_STATE
                    | yaml_parser_state_t::YAML_PARSE_DOCUMENT_START_STATE
                    | yaml_parser_state_t::YAML_PARSE_END_STATE
            )
    }

    /// Returns whether no more events come: the stream has ended, or an error is kept.
    pub(crate) fn is_over(&self) -> bool
        ensures { result ≡ ended_or_failed self.now }
    {
        self.has_failed()
            || matches!(
                self.automaton.state(),
                yaml_parser_state_t::YAML_PARSE_END_STATE
            )
    }
}
