//! An iterator over the events of a parser that also says where each belongs in its document.
ghost use Rattle.std.specs.Prelude.{◌≡◌, true};
ghost use Rattle.std.specs.Iterator.{at_most};
ghost use Rattle.libyaml_events.specs.sources.History.{between_documents};
ghost use Rattle.libyaml_events.specs.sources.Iterates.{items_left};
ghost use Rattle.libyaml_loader.specs.composed.ComposedEvents.{composed_events};
ghost use Rattle.libyaml_loader.specs.composed.EventComposer.{new_event_composer};
ghost use Rattle.libyaml_loader.specs.composed.PlacedEvents.{YieldsPlaced};
ghost use Rattle.libyaml_loader.specs.document.Ids.{magnitude};

use crate::event_composer::event_composer_t;
use crate::load::bound_of;
use crate::places::yaml_place_t;
use crate::refusal::keep_fault;
use libyaml_events::{yaml_parser_t, yaml_parser_t_prefix, yaml_token_source_t};
use libyaml_types::yaml_event_t;
use std::iter::FusedIterator;

/// The events that a parser has still to give, with their places: what `yaml_parser_placed_events` returns.
#[derive(Drop)]
pub struct yaml_parser_placed_events_t<'a, S> {
    /// The parser that gives them.
    pub parser: &'a mut yaml_parser_t<S>,
    /// What is kept of the document that is open.
    pub composer: event_composer_t,
}

/// Returns an iterator over the items of `yaml_parser_composed_events`, each event with its place.
///
/// An alias, a scalar and the start of a collection have one, within a document; no other event has one. The
/// parser must stand between documents (`yaml_parser_between_documents`).
///
/// # Errors
///
/// Those of `yaml_parser_composed_events`.
pub fn yaml_parser_placed_events<'a, S: yaml_token_source_t>(
    parser: &'a mut yaml_parser_t<S>,
) -> yaml_parser_placed_events_t<'a, S>
    requires between { between_documents parser.old ≡ true }
    ensures same_reference { result.parser.ghost_name ≡ parser.entry.ghost_name }
    ensures parser { result.parser.now ≡ parser.old }
    ensures composer { result.composer ≡ new_event_composer (magnitude parser.old.max_entries) }
{
    let composer = event_composer_t::new(parser.allocator(), bound_of(parser));
    yaml_parser_placed_events_t { parser, composer }
}

impl<'a, S: yaml_token_source_t + Drop> Iterator for yaml_parser_placed_events_t<'a, S> {
    type Item = Result<(yaml_event_t, Option<yaml_place_t>), yaml_parser_t_prefix>;

    ghost next_gives = { λ s r t. YieldsPlaced S.yaml_token_source_t
        (composed_events s.parser.now s.composer) r (composed_events t.parser.now t.composer)
        × (t.parser.ghost_name ≡ s.parser.ghost_name) };

    ghost remaining = { λ s. at_most (items_left S.bound s.parser.now) };

    /// Returns the next event with its place, or the error that ends them. After the stream end event or an
    /// error: `None`.
    fn next(
        &mut self,
    ) -> Option<Result<(yaml_event_t, Option<yaml_place_t>), yaml_parser_t_prefix>> {
        self.parser.remembered();
        let event = match self.parser.next()? {
            Ok(event) => event,
            Err(fault) => return Some(Err(fault)),
        };
        match self.composer.take_placed(&event) {
            Ok(place) => Some(Ok((event, place))),
            Err(refusal) => {
                let fault = self.composer.fault(refusal, &event);
                keep_fault(self.parser, fault);
                Some(Err(fault))
            }
        }
    }
}

impl<'a, S: yaml_token_source_t + Drop> FusedIterator for yaml_parser_placed_events_t<'a, S> {}
