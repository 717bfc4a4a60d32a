//! The document that is open where a load fails, closed there.
ghost use Rattle.std.specs.Prelude.{◌≡◌, ◌⊎◌, ◌∷◌, [], List, Err, IfSome, None, OnErr, OnOk, Some, true};
ghost use Rattle.libyaml_types.specs.Fault.{Fault, fault_of};
ghost use Rattle.libyaml_grammar.specs.grammar.Events.{Event};
ghost use Rattle.libyaml_grammar.specs.runs.Runs.{Ending};
ghost use Rattle.libyaml_graphs.specs.graphs.GraphParts.{closing_of, leaf_part, part_of};
ghost use Rattle.libyaml_graphs.specs.loads.Leads.{loads_from};
ghost use Rattle.libyaml_graphs.specs.machine.Loader.{bounded_option, failed, going};
ghost use Rattle.libyaml_loader.specs.document.Context.{Composed, ComposerMatches, loader_of};
ghost use Rattle.libyaml_loader.specs.document.Context.{with_nodes};
ghost use Rattle.libyaml_loader.specs.loads.HalfDocument.{IsHalf, NeedsValue, closed_at};
ghost use Rattle.libyaml_loader.specs.loads.HalfDocument.{empty_scalar_node};
ghost use Rattle.libyaml_loader.specs.pushes.Composing.{IsSound, composer_state};

use crate::composer::{Closing, DocumentBuilder};
use crate::context::loader_ctx;
use crate::refusal::{Refusal, fault_by};
use libyaml_documents::yaml_document_t;
use libyaml_events::yaml_parser_t_prefix;
use libyaml_types::{
    unnamed_yaml_event_t_data_scalar, yaml_error_type_t, yaml_event_t, yaml_event_type_t,
    yaml_mark_t, yaml_scalar_style_t,
};

impl loader_ctx {
    /// Closes the open collections at `mark`, the innermost first. A key that waits gets an empty scalar as
    /// its value, unless the list of nodes is full.
    ///
    /// # Errors
    ///
    /// `Memory`, if an allocation failed for such a value.
    fn close(&mut self, mark: &yaml_mark_t) -> Result<(), Refusal>
        requires { ComposerMatches self.old }
        ensures closed { OnOk result (closed_at self.old.collections.most mark.now
            (loader_of self.old).stack (loader_of self.old) ≡ going (loader_of self.new)) }
        ensures document { OnOk result (self.new.document
            ≡ with_nodes self.new.document.nodes self.old.document) }
        ensures err { OnErr result (NeedsValue self.old.collections.most (loader_of self.old)) }
    {
        while let Some(is_waiting) = self.collections.waits() {
            if is_waiting && self.collections.has_room() {
                self.add_empty_scalar(mark)?;
            }
            self.load_end(mark);
        }
        Ok(())
    }

    /// Adds an empty plain scalar at `mark`.
    ///
    /// # Errors
    ///
    /// `Memory`.
    fn add_empty_scalar(&mut self, mark: &yaml_mark_t) -> Result<(), Refusal>
        requires { ComposerMatches self.old }
        ensures ok { OnOk result (Composed self.old self.new
            (Some (leaf_part None (empty_scalar_node mark.now)))) }
        ensures stands { OnOk result (ComposerMatches self.new) }
    {
        let mut scalar = unnamed_yaml_event_t_data_scalar {
            anchor: None,
            tag: None,
            value: String::new(self.alloc),
            plain_implicit: true,
            quoted_implicit: false,
            style: yaml_scalar_style_t::YAML_PLAIN_SCALAR_STYLE,
        };
        self.yaml_parser_load_scalar(&mut scalar, mark, mark)
    }

    /// Returns the error of an event that the document refuses: an alias whose anchor no node has, a node
    /// whose anchor another node has, or either if a list is full.
    #[tactic(auto, using(libyaml_composer::proofs::exported::Follows::list_is))]
    fn fault_at(&self, event: &yaml_event_t) -> Option<yaml_parser_t_prefix>
        requires { ComposerMatches self.now }
        ensures refuses { IfSome result (λ f. bounded_option self.now.collections.most
            (loader_of self.now) (part_of event.now) ≡ failed (fault_of f)) }
        ensures accepts { result ≡ None → (f : Fault) → bounded_option self.now.collections.most
            (loader_of self.now) (part_of event.now) ≡ failed f → ⊥ }
        ensures not_end { IfSome result (λ _. closing_of event.now ≡ None) }
        ensures of_loader { IfSome result (λ f. (f.error ≡ yaml_error_type_t.YAML_MEMORY_ERROR)
            ⊎ (f.error ≡ yaml_error_type_t.YAML_COMPOSER_ERROR)) }
    {
        let mark = event.start_mark;
        let is_alias = match event.type_() {
            yaml_event_type_t::YAML_ALIAS_EVENT => true,
            yaml_event_type_t::YAML_SCALAR_EVENT
            | yaml_event_type_t::YAML_SEQUENCE_START_EVENT
            | yaml_event_type_t::YAML_MAPPING_START_EVENT => false,
            _ => return None,
        };
        if !is_alias && !self.collections.has_room() {
            return Some(fault_by(Refusal::Memory, mark, mark));
        }
        let anchored_node = match event.anchor() {
            Some(anchor) => self.anchors.find(anchor),
            None => None,
        };
        match anchored_node {
            None if is_alias => Some(fault_by(Refusal::UndefinedAlias, mark, mark)),
            Some(first) if !is_alias => Some(fault_by(Refusal::RepeatedAnchor, first.mark, mark)),
            _ if self.collections.is_list_full() => Some(fault_by(Refusal::Memory, mark, mark)),
            _ => None,
        }
    }
}

impl DocumentBuilder {
    /// Ends the document that is open at `mark`, after its open collections, and returns it; `None` if no
    /// document is open, or if an allocation failed.
    pub(crate) fn end_half(&mut self, mark: yaml_mark_t) -> Option<yaml_document_t>
        requires { IsSound self.old }
        ensures { IsHalf self.old.max_entries mark (composer_state self.old) result }
    {
        if !self.is_open {
            return None;
        }
        match self.ctx.close(&mark) {
            Ok(()) => Some(self.end(Closing {
                implicit: true,
                mark,
            })),
            Err(_) => None,
        }
    }

    /// Returns the error of an event that the document that is open refuses.
    pub(crate) fn event_fault(&self, event: &yaml_event_t) -> Option<yaml_parser_t_prefix>
        requires { IsSound self.now }
        ensures refuses { IfSome result (λ f. (rest : List Event) (x : Ending)
            → loads_from self.now.max_entries (composer_state self.now) (event.now ∷ rest) x
            ≡ Err (fault_of f) ∷ []) }
        ensures accepts { result ≡ None → self.now.is_open ≡ true → (f : Fault)
            → bounded_option self.now.max_entries (loader_of self.now.ctx) (part_of event.now) ≡ failed f
            → ⊥ }
        ensures of_loader { IfSome result (λ f. (f.error ≡ yaml_error_type_t.YAML_MEMORY_ERROR)
            ⊎ (f.error ≡ yaml_error_type_t.YAML_COMPOSER_ERROR)) }
    {
        if !self.is_open {
            return None;
        }
        self.ctx.fault_at(event)
    }
}
