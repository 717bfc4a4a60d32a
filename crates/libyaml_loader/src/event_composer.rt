//! What composes events and makes no documents.
ghost use Rattle.std.specs.Prelude.{◌≡◌, ◌⊎◌, true, false, IfErr, IfOk, IfSome, None, OnErr, OnOk};
ghost use Rattle.std.specs.Option.{option_map};
ghost use Rattle.libyaml_types.specs.Fault.{fault_of};
ghost use Rattle.libyaml_graphs.specs.graphs.GraphParts.{part_of};
ghost use Rattle.libyaml_composer.specs.Composing.{most_of};
ghost use Rattle.libyaml_composer.specs.DocumentSoFar.{IsRefused};
ghost use Rattle.libyaml_loader.specs.composed.Anchoring.{event_first_mark, event_node, registered_at};
ghost use Rattle.libyaml_loader.specs.composed.EventComposer.{ComposesTo, RefusesBy};
ghost use Rattle.libyaml_loader.specs.composed.EventComposer.{needs_memory, needs_memory_by};
ghost use Rattle.libyaml_loader.specs.composed.EventComposer.{new_event_composer};
ghost use Rattle.libyaml_loader.specs.composed.Places.{PlacesEvent};
ghost use Rattle.libyaml_loader.specs.composed.Telling.{TellsDeed, load_fault};
ghost use Rattle.libyaml_loader.specs.document.Ids.{anchored_node_of};
ghost use Rattle.libyaml_loader.specs.document.Refusals.{fault_by};

use crate::anchors::{Anchors, id_or_none};
use crate::context::accepted;
use crate::ids::AnchoredNode;
use crate::places::{place_by, yaml_place_t};
use crate::refusal::{Refusal, fault_by};
use crate::stack::{NO_PLACE, OpenCollections};
use libyaml_composer::{Deed, place_t};
use libyaml_events::yaml_parser_t_prefix;
use libyaml_types::{yaml_error_type_t, yaml_event_t, yaml_event_type_t, yaml_mark_t};
use std::alloc::{AllocError, Global};
use std::marker::Model;

/// What `yaml_parser_composed_events` keeps between two events: counts, the open collections and the anchors
/// of the document that is open. It keeps no node.
#[derive(Drop)]
pub struct event_composer_t {
    collections: OpenCollections,
    anchors: Anchors,
    alloc: Global,
}

impl Model for event_composer_t {
    ghost use Rattle.std.specs.Coded.{codes};
    ghost use Rattle.libyaml_loader.specs.composed.EventComposer.{EventComposer};
    ghost use Rattle.libyaml_loader.specs.document.Anchors.{anchors_code};

    ghost Value = { EventComposer };

    ghost coded = { Prim.hlevel (codes, anchors_code) };

    ghost view = { λ c. record { collections = c.collections; anchors = c.anchors } };
}

impl event_composer_t {
    /// Returns what is kept before a stream's first event, without an allocation. Each list of a document may
    /// have `max_entries` entries.
    pub fn new(alloc: Global, max_entries: u32) -> Self
        ensures { result ≡ new_event_composer (most_of max_entries) }
    {
        event_composer_t {
            collections: OpenCollections::new(alloc, max_entries),
            anchors: Anchors::new(alloc),
            alloc,
        }
    }

    /// Takes an event. Returns what is to be done to the document, never `FullStack`, and puts where its node
    /// or alias goes: zeros if it has none. If the deed refuses the event nothing changes.
    ///
    /// # Errors
    ///
    /// An allocation failed, at the start of a collection or at a node with an anchor, and none before has the
    /// same anchor. The value is then unspecified.
    #[tactic(auto, using(crate::proofs::composed::Memory::none_registered, crate::proofs::composed::Memory::opened_needs))]
    pub fn compose(&mut self, event: &yaml_event_t, place: &mut place_t) -> Result<Deed, AllocError>
        ensures tells { IfOk result (λ d. TellsDeed self.old event.now d place.new self.new) }
        ensures err { OnErr result (needs_memory self.old.anchors event.now ≡ true) }
    {
        *place = NO_PLACE;
        let fact = id_or_none(self.anchored_node(event));
        let deed = self.collections.take_any(event.type_(), fact, place)?;
        if let Deed::Begins = deed {
            self.anchors = Anchors::new(self.alloc);
            return Ok(deed);
        }
        if fact != 0 {
            // an alias, or refused
            return Ok(deed);
        }
        self.register(event, place.node)?;
        Ok(deed)
    }

    /// Composes an event. After an error the value is unspecified.
    ///
    /// # Errors
    ///
    /// `Memory` if an allocation fails or a list has `max_entries` entries already; `UndefinedAlias` if no
    /// earlier node has the alias's anchor; `RepeatedAnchor` if an earlier node has the anchor of this one.
    pub(crate) fn take(&mut self, event: &yaml_event_t) -> Result<(), Refusal>
        ensures composes { OnOk result (ComposesTo self.old event.now self.new) }
        ensures refuses { IfErr result (λ r. RefusesBy self.old event.now
            (fault_by r (event_first_mark self.new.anchors event.now) event.now.start_mark)) }
    {
        let mut place = NO_PLACE;
        accepted(self.compose(event, &mut place)?)?;
        Ok(())
    }

    /// Composes an event, and returns where it belongs, if it has a place. After an error the value is
    /// unspecified.
    ///
    /// # Errors
    ///
    /// Those of `take`.
    pub(crate) fn take_placed(
        &mut self,
        event: &yaml_event_t,
    ) -> Result<Option<yaml_place_t>, Refusal>
        ensures composes { OnOk result (ComposesTo self.old event.now self.new) }
        ensures places { IfOk result (λ place. PlacesEvent self.old event.now place self.new) }
        ensures refuses { IfErr result (λ r. RefusesBy self.old event.now
            (fault_by r (event_first_mark self.new.anchors event.now) event.now.start_mark)) }
    {
        let innermost = self.collections.innermost();
        let depth = self.collections.depth();
        let mut place = NO_PLACE;
        let deed = accepted(self.compose(event, &mut place)?)?;
        Ok(place_by(deed, place, innermost, depth))
    }

    /// Returns the error of a load at an event that a deed refuses, and `None` if the deed takes it.
    pub fn refusal(&self, deed: Deed, event: &yaml_event_t) -> Option<yaml_parser_t_prefix>
        ensures refused { IfSome result (λ f. IsRefused deed
            × (fault_of f ≡ load_fault deed self.now event.now)
            × ((f.error ≡ yaml_error_type_t.YAML_MEMORY_ERROR)
            ⊎ (f.error ≡ yaml_error_type_t.YAML_COMPOSER_ERROR))) }
        ensures taken { result ≡ None → IsRefused deed → ⊥ }
    {
        match accepted(deed) {
            Ok(_) => None,
            Err(refusal) => Some(self.fault(refusal, event)),
        }
    }

    /// Returns the error of an event that was refused.
    #[cold]
    pub(crate) fn fault(&self, refusal: Refusal, event: &yaml_event_t) -> yaml_parser_t_prefix
        ensures fault { fault_of result ≡ fault_by refusal
            (event_first_mark self.now.anchors event.now) event.now.start_mark }
        ensures of_loader { (result.error ≡ yaml_error_type_t.YAML_MEMORY_ERROR)
            ⊎ (result.error ≡ yaml_error_type_t.YAML_COMPOSER_ERROR) }
    {
        fault_by(refusal, self.first_mark(event), event.start_mark)
    }

    /// Returns where the node starts that has the anchor of this event. If none does: where the event starts.
    fn first_mark(&self, event: &yaml_event_t) -> yaml_mark_t
        ensures { result ≡ event_first_mark self.now.anchors event.now }
    {
        match self.anchored_node(event) {
            Some(first) => first.mark,
            None => event.start_mark,
        }
    }

    /// Returns the node that has the anchor of this event.
    #[inline(always)]
    fn anchored_node(&self, event: &yaml_event_t) -> Option<AnchoredNode>
        ensures { option_map anchored_node_of result ≡ event_node self.now.anchors event.now }
    {
        match event.anchor() {
            Some(anchor) => self.anchors.find(anchor),
            None => None,
        }
    }

    /// Registers the node of this event by its anchor, if it has both. `node` is its id, or 0.
    ///
    /// # Errors
    ///
    /// An allocation failed.
    fn register(&mut self, event: &yaml_event_t, node: i32) -> Result<(), AllocError>
        ensures registered { OnOk result (self.new ≡ record self.old {
          anchors = registered_at node (part_of event.now) self.old.anchors;
        }) }
        ensures err { OnErr result (needs_memory_by false (part_of event.now) ≡ true) }
    {
        if node < 1 || event.type_() == yaml_event_type_t::YAML_ALIAS_EVENT {
            return Ok(());
        }
        let Some(anchor) = event.anchor() else {
            return Ok(());
        };
        let anchor = String::from_str(self.alloc, anchor)?;
        let mark = event.start_mark;
        self.anchors.register(anchor, AnchoredNode { node, mark })?;
        Ok(())
    }
}
