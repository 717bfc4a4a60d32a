//! A loader that is handed its tokens.
ghost use Rattle.std.specs.Prelude.{◌≡◌, ◌≤◌, [], pos, ◌≤ℤ◌, IfErr, IfOk, true, false};
ghost use Rattle.std.specs.Vec.{vec_capacity, vec_len};
ghost use Rattle.libyaml_types.specs.Fault.{fault_of, no_fault};
ghost use Rattle.libyaml_types.specs.declared.enums.yaml_token_type_t.{yaml_token_type_t};
ghost use Rattle.libyaml_automaton.specs.Acceptable.{has};
ghost use Rattle.libyaml_grammar.specs.grammar.ValidLists.{IsViablePrefix};
ghost use Rattle.libyaml_events.specs.sources.Acceptable.{AreAcceptable, Complete};
ghost use Rattle.libyaml_events.specs.sources.Pushes.{done_of};
ghost use Rattle.libyaml_loader.specs.document.Ids.{magnitude};
ghost use Rattle.libyaml_loader.specs.pushes.Loaded.{ForLoaded, Loaded, RemembersLoads, loader_fault};
ghost use Rattle.libyaml_loader.specs.pushes.Loaded.{loader_has_stopped, made_loader};
ghost use Rattle.libyaml_loader.specs.pushes.PushesLoads.{PushesLoads};

use crate::composer::DocumentBuilder;
use libyaml_documents::yaml_document_t;
use libyaml_events::{TokenTypes, yaml_parser_t_prefix, yaml_push_parser_t};
use libyaml_types::{yaml_error_type_t, yaml_event_t, yaml_token_t, yaml_token_type_t};
use std::alloc::{AllocError, Global};
use std::marker::Model;

/// A loader that is handed one token after another.
#[derive(Drop)]
pub struct yaml_push_loader_t {
    parser: yaml_push_parser_t,
    composer: DocumentBuilder,
    /// The events of a push. Between two pushes it is empty.
    events: Vec<yaml_event_t>,
}

impl Model for yaml_push_loader_t {
    ghost use Rattle.std.specs.Prelude.{◌≡◌, []};
    ghost use Rattle.std.specs.Coded.{codes};
    ghost use Rattle.libyaml_events.specs.machine.Config.{handles_code};
    ghost use Rattle.libyaml_types.specs.Fault.{fault_of};
    ghost use Rattle.libyaml_loader.specs.document.Anchors.{anchors_code};
    ghost use Rattle.libyaml_loader.specs.pushes.Composing.{IsSound, composer_state};
    ghost use Rattle.libyaml_loader.specs.pushes.Loaded.{PushLoader, RemembersLoads, standing_loader};

    ghost Value = { PushLoader };

    ghost coded = { Prim.hlevel (codes, handles_code, anchors_code) };

    ghost view = { λ l. standing_loader l.parser (composer_state l.composer) (fault_of l.composer.fault)
        l.composer.max_entries };

    ghost invariant = { λ l. (l.events.items ≡ []) × IsSound l.composer
        × RemembersLoads (standing_loader l.parser (composer_state l.composer) (fault_of l.composer.fault)
        l.composer.max_entries) };
}

impl yaml_push_loader_t {
    /// Returns a loader at a stream's start, without an allocation. Each list of a document may have
    /// 2147483647 entries.
    pub fn new(alloc: Global) -> Self
        ensures value { result ≡ made_loader 2147483647 }
        ensures begins { Loaded result [] [] }
    {
        Self::with_max_entries(alloc, i32::MAX)
    }

    /// Returns a loader at a stream's start, without an allocation. Each list of a document may have `n`
    /// entries, and `n` must be at least 1.
    pub fn with_max_entries(alloc: Global, n: i32) -> Self
        requires at_least_one { pos 1 ≤ℤ n }
        ensures value { result ≡ made_loader (magnitude n) }
        ensures begins { Loaded result [] [] }
    {
        yaml_push_loader_t {
            parser: yaml_push_parser_t::new(alloc),
            composer: DocumentBuilder::new(alloc, n as u32),
            events: Vec::new(alloc),
        }
    }

    /// Takes a token, and appends the documents that end with it. After the stream's end or an error it takes
    /// none.
    ///
    /// # Errors
    ///
    /// An error, which the loader keeps for good, so that each further call returns it: one of the grammar;
    /// an alias whose anchor no node before it has, or a second node with an anchor; out of memory, if an
    /// allocation failed or a list of the document would have more entries than it may. The documents that
    /// ended before it are appended.
    pub fn push(
        &mut self,
        token: yaml_token_t,
        documents: &mut Vec<yaml_document_t>,
    ) -> Result<(), yaml_parser_t_prefix>
        ensures pushes { PushesLoads (vec_capacity documents.old ≤ vec_len documents.new) self.old token
            documents.old.items (done_of result) self.new documents.new.items }
        ensures error { IfErr result (λ f. fault_of f ≡ loader_fault self.new) }
    {
        let mut token = token;
        self.push_from(&mut token, documents)
    }

    /// Takes a token like `push`, but from a variable: a loop can reuse one token without moving it.
    /// Afterwards the value of `token` is unspecified.
    ///
    /// # Errors
    ///
    /// Those of `push`.
    pub fn push_from(
        &mut self,
        token: &mut yaml_token_t,
        documents: &mut Vec<yaml_document_t>,
    ) -> Result<(), yaml_parser_t_prefix>
        ensures pushes { PushesLoads (vec_capacity documents.old ≤ vec_len documents.new) self.old token.old
            documents.old.items (done_of result) self.new documents.new.items }
        ensures error { IfErr result (λ f. fault_of f ≡ loader_fault self.new) }
    {
        match self.take_from(token, documents) {
            Ok(()) => Ok(()),
            Err(_) => Err(*self.prefix()),
        }
    }

    /// Takes the token in this variable, and returns the kind of an error.
    #[inline(always)]
    fn take_from(
        &mut self,
        token: &mut yaml_token_t,
        documents: &mut Vec<yaml_document_t>,
    ) -> Result<(), yaml_error_type_t>
        ensures { PushesLoads (vec_capacity documents.old ≤ vec_len documents.new) self.old token.old
            documents.old.items result self.new documents.new.items }
    {
        self.composer.kept()?;
        let pushed = self.parser.push_from(token, &mut self.events);
        let composed = self.composer.take_events(&mut self.events, documents);
        self.events.clear();
        composed?;
        if let Err(fault) = pushed {
            self.composer.keep(fault);
            return Err(fault.error);
        }
        Ok(())
    }

    /// Returns which types of token may come next, as `yaml_push_parser_t::expected` does. After the stream's
    /// end or an error none may.
    pub fn expected(&self) -> TokenTypes
        ensures acceptable { ForLoaded self.now (λ tokens _. AreAcceptable result tokens) }
        ensures stopped { loader_has_stopped self.now ≡ true → (k : yaml_token_type_t)
            → has result k ≡ false }
    {
        if self.composer.kept().is_err() {
            return TokenTypes::none();
        }
        self.parser.expected()
    }

    /// Returns the types of the tokens that complete those pushed so far, as `yaml_push_parser_t::completion`
    /// does: once they are pushed, the document that is open is given with all its nodes so far. After the
    /// stream's end or an error it returns none.
    ///
    /// # Errors
    ///
    /// If an allocation failed.
    pub fn completion(&self, alloc: Global) -> Result<Vec<yaml_token_type_t>, AllocError>
        ensures completes { IfOk result (λ types. ForLoaded self.now (λ tokens _. IsViablePrefix tokens
            → Complete types.items tokens)) }
        ensures stopped { loader_has_stopped self.now ≡ true → IfOk result (λ types. types.items ≡ []) }
    {
        if self.composer.kept().is_err() {
            return Ok(Vec::new(alloc));
        }
        self.parser.completion(alloc)
    }

    /// Does nothing. A loader that keeps no error has a history: some pushes lead to a loader like it.
    pub fn remembered(&self)
        ensures { RemembersLoads self.now }
    {
        let _ = &self.parser;
    }

    /// Returns the error that the loader keeps, or `NO_FAULT` if it keeps none.
    pub fn prefix(&self) -> &yaml_parser_t_prefix
        ensures kept { fault_of result.now ≡ loader_fault self.now }
        ensures before_fault { ForLoaded self.now (λ _ _. fault_of result.now ≡ no_fault) }
    {
        &self.composer.fault
    }
}
