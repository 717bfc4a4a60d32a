//! A document that is being composed: its nodes so far, its open collections and its anchors.
//!
//! A function that fails may leave the document half changed. The load then fails, and drops it.

ghost use Rattle.std.specs.Prelude.{◌≡◌, ◌++◌, ◌∷◌, [], length, false, true, Some, None};
ghost use Rattle.std.specs.Prelude.{IfOk, IfErr, OnOk, option_map, string_bytes};
ghost use Rattle.libyaml_documents.specs.Documents.{empty_document};
ghost use Rattle.libyaml_documents.specs.LoadedNodes.{begun_document, ended_document};
ghost use Rattle.libyaml_documents.specs.LoadedNodes.{mapping_loaded, scalar_loaded, sequence_loaded};
ghost use Rattle.libyaml_graphs.specs.machine.Loader.{no_anchors};
ghost use Rattle.libyaml_graphs.specs.graphs.GraphParts.{alias_part, closing_of, end_part, leaf_part};
ghost use Rattle.libyaml_graphs.specs.graphs.GraphParts.{part_of, start_part};
ghost use Rattle.libyaml_grammar.specs.grammar.Events.{Event};
ghost use Rattle.libyaml_composer.specs.Composing.{most_of};
ghost use Rattle.libyaml_composer.specs.DocumentSoFar.{IsRefused, placed};
ghost use Rattle.libyaml_composer.specs.Represents.{FitsParent, IsNode};
ghost use Rattle.libyaml_loader.specs.document.Context.{Composed, Decided, IsEvent, IsListed, Named, Refuses};
ghost use Rattle.libyaml_loader.specs.document.Context.{ComposerMatches, refusal_of, with_nodes};
ghost use Rattle.libyaml_loader.specs.document.Ids.{anchored_node_of};
ghost use Rattle.libyaml_loader.specs.document.Stack.{with_document_begun, first_composer};
ghost use Rattle.libyaml_loader.specs.loads.LoadGrowth.{is_new};

use crate::anchors::{Anchors, id_or_none};
use crate::ids::AnchoredNode;
use crate::refusal::Refusal;
use crate::stack::{NO_PLACE, OpenCollections};
use libyaml_composer::{Deed, place_t};
use libyaml_documents::building::{
    append_node, begin_document, end_document, mapping_of_event, scalar_of_event,
    sequence_of_event, set_end_mark,
};
use libyaml_documents::{
    yaml_document_append_mapping_pair, yaml_document_append_sequence_item, yaml_document_t,
};
use libyaml_types::{
    ZERO_MARK, unnamed_yaml_event_t_data, unnamed_yaml_event_t_data_alias,
    unnamed_yaml_event_t_data_document_start, unnamed_yaml_event_t_data_mapping_start,
    unnamed_yaml_event_t_data_scalar, unnamed_yaml_event_t_data_sequence_start, yaml_event_t,
    yaml_event_type_t, yaml_mark_t,
};
use std::alloc::Global;

/// A document that is being composed.
///
/// Extends libyaml's `loader_ctx` by the parser's fields `document` and `aliases`.
#[derive(Drop)]
pub(crate) struct loader_ctx {
    pub document: yaml_document_t,
    pub collections: OpenCollections,
    pub anchors: Anchors,
    /// Where the first node with a repeated anchor starts. Before `RepeatedAnchor` its value has no meaning.
    pub first_mark: yaml_mark_t,
    pub alloc: Global,
}

impl loader_ctx {
    /// Returns a context without a document. Takes no memory.
    pub(crate) fn new(alloc: Global, max_entries: u32) -> Self
        ensures collections { result.collections ≡ first_composer (most_of max_entries) }
        ensures anchors { result.anchors ≡ no_anchors }
    {
        loader_ctx {
            document: empty_document(alloc),
            collections: OpenCollections::new(alloc, max_entries),
            anchors: Anchors::new(alloc),
            first_mark: ZERO_MARK,
            alloc,
        }
    }

    /// Begins the document of this start event, without nodes.
    pub(crate) fn start_document(
        &mut self,
        start: unnamed_yaml_event_t_data_document_start,
        start_mark: yaml_mark_t,
    )
        requires { self.old.collections.is_within ≡ false }
        ensures { self.new ≡ record self.old {
          document = begun_document start start_mark;
          collections =
              with_document_begun self.old.collections;
        } }
    {
        self.document = begin_document(self.alloc, start, start_mark);
        self.collections.enter_document();
    }

    /// Ends the document at `end_mark`, implicitly or explicitly, and returns it.
    pub(crate) fn into_document(self, implicit: bool, end_mark: yaml_mark_t) -> yaml_document_t
        ensures { result ≡ ended_document self.document implicit end_mark }
    {
        let mut document = self.document;
        end_document(&mut document, implicit, end_mark);
        document
    }

    /// Composes an event that doesn't end the document: adds its node or alias, or closes a collection. Other
    /// events change nothing.
    ///
    /// The texts that a node keeps are moved out of the event.
    ///
    /// # Errors
    ///
    /// `Memory` if an allocation fails or a list has `max_entries` entries already; `UndefinedAlias` if no
    /// earlier node has the alias's anchor; `RepeatedAnchor` if an earlier node has the anchor of this one.
    #[inline(always)]
    pub(crate) fn add_event(&mut self, event: &mut yaml_event_t) -> Result<(), Refusal>
        requires stands { ComposerMatches self.old }
        requires not_end { closing_of event.old ≡ None }
        ensures ok { OnOk result (Composed self.old self.new (part_of event.old)) }
        ensures stands { OnOk result (ComposerMatches self.new) }
        ensures err { IfErr result (λ r. Refuses self.old self.new (part_of event.old)
            event.old.start_mark r) }
        ensures mark { event.new.start_mark ≡ event.old.start_mark }
    {
        match &mut event.content {
            unnamed_yaml_event_t_data::Alias(alias) => {
                self.yaml_parser_load_alias(alias, &event.start_mark)
            }
            unnamed_yaml_event_t_data::Scalar(scalar) => {
                self.yaml_parser_load_scalar(scalar, &event.start_mark, &event.end_mark)
            }
            unnamed_yaml_event_t_data::SequenceStart(start) => {
                self.yaml_parser_load_sequence(start, &event.start_mark, &event.end_mark)
            }
            unnamed_yaml_event_t_data::MappingStart(start) => {
                self.yaml_parser_load_mapping(start, &event.start_mark, &event.end_mark)
            }
            unnamed_yaml_event_t_data::SequenceEnd | unnamed_yaml_event_t_data::MappingEnd => {
                self.load_end(&event.end_mark);
                Ok(())
            }
            _ => Ok(()),
        }
    }

    /// Puts the id of the node with this anchor into the innermost open collection.
    ///
    /// libyaml: `yaml_parser_load_alias`.
    fn yaml_parser_load_alias(
        &mut self,
        alias: &mut unnamed_yaml_event_t_data_alias,
        start_mark: &yaml_mark_t,
    ) -> Result<(), Refusal>
        requires { ComposerMatches self.old }
        ensures ok { OnOk result (Composed self.old self.new
            (Some (alias_part alias.old.anchor start_mark.now))) }
        ensures stands { OnOk result (ComposerMatches self.new) }
        ensures err { IfErr result (λ r. Refuses self.old self.new
            (Some (alias_part alias.old.anchor start_mark.now)) start_mark.now r) }
    {
        let mut place = NO_PLACE;
        let deed = self.decide_alias(alias.anchor.as_str(), start_mark, &mut place)?;
        self.attach_child(deed, &place)
    }

    /// Appends a scalar to the nodes, and puts it into the innermost open collection.
    ///
    /// libyaml: `yaml_parser_load_scalar`.
    pub(crate) fn yaml_parser_load_scalar(
        &mut self,
        scalar: &mut unnamed_yaml_event_t_data_scalar,
        start_mark: &yaml_mark_t,
        end_mark: &yaml_mark_t,
    ) -> Result<(), Refusal>
        requires { ComposerMatches self.old }
        ensures ok { OnOk result (Composed self.old self.new
            (Some (leaf_part scalar.old.anchor (scalar_loaded scalar.old start_mark.now end_mark.now)))) }
        ensures stands { OnOk result (ComposerMatches self.new) }
        ensures err { IfErr result (λ r. Refuses self.old self.new
            (Some (leaf_part scalar.old.anchor (scalar_loaded scalar.old start_mark.now end_mark.now)))
            start_mark.now r) }
    {
        let mut place = NO_PLACE;
        let deed = self.decide(
            yaml_event_type_t::YAML_SCALAR_EVENT,
            &mut scalar.anchor,
            start_mark,
            &mut place,
        )?;
        self.append_scalar(scalar, start_mark, end_mark)?;
        self.attach_child(deed, &place)
    }

    /// Appends an empty sequence to the nodes, puts it into the innermost open collection, and opens it.
    ///
    /// libyaml: `yaml_parser_load_sequence`.
    fn yaml_parser_load_sequence(
        &mut self,
        start: &mut unnamed_yaml_event_t_data_sequence_start,
        start_mark: &yaml_mark_t,
        end_mark: &yaml_mark_t,
    ) -> Result<(), Refusal>
        requires { ComposerMatches self.old }
        ensures ok { OnOk result (Composed self.old self.new (Some (start_part start.old.anchor
            (sequence_loaded start.old.tag start.old.style [] start_mark.now end_mark.now)))) }
        ensures stands { OnOk result (ComposerMatches self.new) }
        ensures err { IfErr result (λ r. Refuses self.old self.new (Some (start_part start.old.anchor
            (sequence_loaded start.old.tag start.old.style [] start_mark.now end_mark.now)))
            start_mark.now r) }
    {
        let mut place = NO_PLACE;
        let deed = self.decide(
            yaml_event_type_t::YAML_SEQUENCE_START_EVENT,
            &mut start.anchor,
            start_mark,
            &mut place,
        )?;
        self.append_sequence(start, start_mark, end_mark)?;
        self.attach_child(deed, &place)
    }

    /// Appends an empty mapping to the nodes, puts it into the innermost open collection, and opens it.
    ///
    /// libyaml: `yaml_parser_load_mapping`.
    fn yaml_parser_load_mapping(
        &mut self,
        start: &mut unnamed_yaml_event_t_data_mapping_start,
        start_mark: &yaml_mark_t,
        end_mark: &yaml_mark_t,
    ) -> Result<(), Refusal>
        requires { ComposerMatches self.old }
        ensures ok { OnOk result (Composed self.old self.new (Some (start_part start.old.anchor
            (mapping_loaded start.old.tag start.old.style [] start_mark.now end_mark.now)))) }
        ensures stands { OnOk result (ComposerMatches self.new) }
        ensures err { IfErr result (λ r. Refuses self.old self.new (Some (start_part start.old.anchor
            (mapping_loaded start.old.tag start.old.style [] start_mark.now end_mark.now)))
            start_mark.now r) }
    {
        let mut place = NO_PLACE;
        let deed = self.decide(
            yaml_event_type_t::YAML_MAPPING_START_EVENT,
            &mut start.anchor,
            start_mark,
            &mut place,
        )?;
        self.append_mapping(start, start_mark, end_mark)?;
        self.attach_child(deed, &place)
    }

    /// Closes the innermost open collection, if there is one, and sets its node's end mark.
    ///
    /// libyaml: `yaml_parser_load_sequence_end` and `yaml_parser_load_mapping_end`.
    pub(crate) fn load_end(&mut self, end_mark: &yaml_mark_t)
        requires { ComposerMatches self.old }
        ensures ok { Composed self.old self.new (Some (end_part end_mark.now)) }
        ensures stands { ComposerMatches self.new }
        ensures count { self.new.collections.nodes ≡ self.old.collections.nodes }
    {
        let mut place = NO_PLACE;
        let deed = self
            .collections
            .step(yaml_event_type_t::YAML_SEQUENCE_END_EVENT, 0, &mut place);
        if let Deed::Closes = deed {
            set_end_mark(&mut self.document, place.parent, *end_mark);
        }
    }

    /// If there is an anchor, makes the next node, which starts at `mark`, its anchored node.
    /// Returns 0, or if a node has that anchor already, its id, and the load ends. The anchor is moved out.
    ///
    /// libyaml: `yaml_parser_register_anchor`.
    ///
    /// # Errors
    ///
    /// `Memory`.
    #[inline(always)]
    fn named(&mut self, anchor: &mut Option<String>, mark: &yaml_mark_t) -> Result<i32, Refusal>
        ensures ok { IfOk result (λ id. Named self.old self.new (option_map string_bytes anchor.old)
            mark.now id) }
        ensures err { IfErr result (λ r. (r ≡ Refusal.Memory)
            × (is_new (option_map string_bytes anchor.old) self.old.anchors ≡ true)) }
    {
        match anchor {
            None => Ok(0),
            Some(_) => self.register(anchor, mark),
        }
    }

    /// As `named`, and a function of its own since few nodes have an anchor.
    #[inline(never)]
    fn register(&mut self, anchor: &mut Option<String>, mark: &yaml_mark_t) -> Result<i32, Refusal>
        ensures ok { IfOk result (λ id. Named self.old self.new (option_map string_bytes anchor.old)
            mark.now id) }
        ensures err { IfErr result (λ r. (r ≡ Refusal.Memory)
            × (is_new (option_map string_bytes anchor.old) self.old.anchors ≡ true)) }
    {
        let Some(anchor) = anchor.take() else {
            return Ok(0);
        };
        let count = self.document.nodes().len();
        let is_beyond = count >= 2147483647;
        let node = if is_beyond {
            2147483647
        } else {
            count as i32 + 1
        };
        match self
            .anchors
            .register(anchor, AnchoredNode { node, mark: *mark })?
        {
            None if is_beyond => Err(Refusal::Memory),
            None => Ok(0),
            Some(first) => {
                self.first_mark = first.mark;
                Ok(first.node)
            }
        }
    }

    /// Decides what is to be done with a node of an event of this kind, with this anchor, that starts here.
    /// The anchor is moved out, and is the next node's from here on.
    ///
    /// # Errors
    ///
    /// As those of `add_event`.
    #[inline(always)]
    fn decide(
        &mut self,
        kind: yaml_event_type_t,
        anchor: &mut Option<String>,
        mark: &yaml_mark_t,
        place: &mut place_t,
    ) -> Result<Deed, Refusal>
        requires { ComposerMatches self.old }
        ensures ok { IfOk result (λ d. (e : Event) → IsEvent kind (option_map string_bytes anchor.old)
            mark.now e → IsNode (part_of e) → Decided self.old self.new (part_of e) e.end_mark d place.new) }
        ensures err { IfErr result (λ r. (e : Event) → IsEvent kind (option_map string_bytes anchor.old)
            mark.now e → IsNode (part_of e) → Refuses self.old self.new (part_of e) mark.now r) }
    {
        let anchored_node = self.named(anchor, mark)?;
        let deed = accepted(self.collections.take(kind, anchored_node, place)?)?;
        Ok(deed)
    }

    /// Decides what is to be done with an alias of this anchor that starts here.
    ///
    /// # Errors
    ///
    /// As those of `add_event`.
    #[inline(always)]
    fn decide_alias(
        &mut self,
        anchor: &str,
        mark: &yaml_mark_t,
        place: &mut place_t,
    ) -> Result<Deed, Refusal>
        requires { ComposerMatches self.old }
        ensures ok { IfOk result (λ d. Decided self.old self.new (Some (alias_part anchor.now mark.now))
            mark.now d place.new) }
        ensures err { IfErr result (λ r. Refuses self.old self.new (Some (alias_part anchor.now mark.now))
            mark.now r) }
    {
        let anchored_node = self.anchors.find(anchor);
        let kind = yaml_event_type_t::YAML_ALIAS_EVENT;
        let deed = accepted(
            self.collections
                .take(kind, id_or_none(anchored_node), place)?,
        )?;
        Ok(deed)
    }

    /// Hands a child to its parent.
    ///
    /// # Errors
    ///
    /// An allocation failed.
    #[inline(always)]
    fn attach_child(&mut self, deed: Deed, place: &place_t) -> Result<(), Refusal>
        requires { FitsParent deed place.now (length self.old.document.nodes) self.old.document.nodes }
        ensures handed { OnOk result (self.new ≡ record self.old {
          document = with_nodes (placed deed place.now self.old.document.nodes) self.old.document;
        }) }
        ensures err { IfErr result (λ r. (r ≡ Refusal.Memory) × IsListed deed) }
    {
        match deed {
            Deed::Item => {
                yaml_document_append_sequence_item(&mut self.document, place.parent, place.child)?;
                Ok(())
            }
            Deed::Value => {
                yaml_document_append_mapping_pair(
                    &mut self.document,
                    place.parent,
                    place.key,
                    place.child,
                )?;
                Ok(())
            }
            _ => Ok(()),
        }
    }

    /// Appends the scalar of an event to the nodes.
    fn append_scalar(
        &mut self,
        scalar: &mut unnamed_yaml_event_t_data_scalar,
        start_mark: &yaml_mark_t,
        end_mark: &yaml_mark_t,
    ) -> Result<(), Refusal>
        ensures added { OnOk result (self.new ≡ record self.old {
          document = with_nodes (self.old.document.nodes
              ++ scalar_loaded scalar.old start_mark.now end_mark.now ∷ []) self.old.document;
        }) }
        ensures err { IfErr result (λ r. r ≡ Refusal.Memory) }
    {
        let node = scalar_of_event(self.alloc, scalar, start_mark, end_mark)?;
        append_node(&mut self.document, node)?;
        Ok(())
    }

    /// Appends the sequence that an event starts, without items, to the nodes.
    fn append_sequence(
        &mut self,
        start: &mut unnamed_yaml_event_t_data_sequence_start,
        start_mark: &yaml_mark_t,
        end_mark: &yaml_mark_t,
    ) -> Result<(), Refusal>
        ensures added { OnOk result (self.new ≡ record self.old {
          document = with_nodes (self.old.document.nodes
              ++ sequence_loaded start.old.tag start.old.style [] start_mark.now end_mark.now ∷ [])
              self.old.document;
        }) }
        ensures err { IfErr result (λ r. r ≡ Refusal.Memory) }
    {
        let node = sequence_of_event(self.alloc, start, start_mark, end_mark)?;
        append_node(&mut self.document, node)?;
        Ok(())
    }

    /// Appends the mapping that an event starts, without pairs, to the nodes.
    fn append_mapping(
        &mut self,
        start: &mut unnamed_yaml_event_t_data_mapping_start,
        start_mark: &yaml_mark_t,
        end_mark: &yaml_mark_t,
    ) -> Result<(), Refusal>
        ensures added { OnOk result (self.new ≡ record self.old {
          document = with_nodes (self.old.document.nodes
              ++ mapping_loaded start.old.tag start.old.style [] start_mark.now end_mark.now ∷ [])
              self.old.document;
        }) }
        ensures err { IfErr result (λ r. r ≡ Refusal.Memory) }
    {
        let node = mapping_of_event(self.alloc, start, start_mark, end_mark)?;
        append_node(&mut self.document, node)?;
        Ok(())
    }
}

/// Returns the document without root.
pub(crate) fn empty_document(alloc: Global) -> yaml_document_t
    ensures { result ≡ empty_document None [] false false }
{
    let start = unnamed_yaml_event_t_data_document_start {
        version_directive: None,
        tag_directives: Vec::new(alloc),
        implicit: false,
    };
    begin_document(alloc, start, ZERO_MARK)
}

/// Returns this deed, unless it is an error.
///
/// # Errors
///
/// The error.
#[inline(always)]
pub(crate) fn accepted(deed: Deed) -> Result<Deed, Refusal>
    ensures ok { IfOk result (λ d. (d ≡ deed) × (IsRefused deed → ⊥)) }
    ensures err { IfErr result (λ r. IsRefused deed × (r ≡ refusal_of deed)) }
{
    match deed {
        Deed::UndefinedAlias => Err(Refusal::UndefinedAlias),
        Deed::RepeatedAnchor => Err(Refusal::RepeatedAnchor),
        Deed::FullList => Err(Refusal::Memory),
        deed => Ok(deed),
    }
}
