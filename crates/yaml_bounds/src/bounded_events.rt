//! An iterator over the events of a parser that ends at a document with too many nodes.
ghost use Rattle.std.specs.Prelude.{◌≡◌, true};
ghost use Rattle.std.specs.Iterator.{at_most};
ghost use Rattle.libyaml_composer.specs.Composing.{most_of};
ghost use Rattle.libyaml_events.specs.sources.History.{between_documents};
ghost use Rattle.libyaml_events.specs.sources.Iterates.{items_left};
ghost use Rattle.libyaml_loader.specs.composed.EventComposer.{new_event_composer};
ghost use Rattle.libyaml_loader.specs.document.Ids.{magnitude};
ghost use Rattle.yaml_bounds.specs.Bounds.{bound_or, size_before};
ghost use Rattle.yaml_bounds.specs.BoundedEvents.{YieldsBounded, bounded_events};

use crate::bounded_composer::bounded_composer_t;
use libyaml_events::{yaml_parser_t, yaml_parser_t_prefix, yaml_token_source_t};
use libyaml_types::yaml_event_t;
use std::iter::FusedIterator;

/// Bounds on each document. A bound that is `None` isn't there.
#[derive(Copy, Clone)]
pub struct yaml_node_bounds_t {
    /// How many nodes a document may have, and how many items or pairs each of them: in place of the parser's
    /// `max_entries`, and never more than 2,147,483,647.
    pub max_nodes: Option<u32>,
    /// How many nodes a document may have with its aliases written out, and never more than
    /// 9,223,372,036,854,775,807.
    pub max_expanded: Option<u64>,
}

/// The events that a parser has still to give, with the errors of the loader and of bounds: what
/// `yaml_parser_bounded_events` returns.
#[derive(Drop)]
pub struct yaml_parser_bounded_events_t<'a, S> {
    /// The parser that gives them.
    pub parser: &'a mut yaml_parser_t<S>,
    /// What is kept of the document that is open.
    pub composer: bounded_composer_t,
}

/// Returns an iterator over the events that the parser has still to give, which fails where a load does, and
/// where a document has too many nodes.
///
/// It yields each event as it is, in one pass, and keeps no node: only the open collections and the anchors of a
/// document, and with a bound on the expanded size one number for each node. After the stream end event or an
/// error it yields no more. The parser must stand between documents (`yaml_parser_between_documents`).
///
/// # Errors
///
/// It yields one error, which the parser keeps for good: one of the parser; or in place of an event a composer
/// error, at its start:
///
/// - those of a load: an alias whose anchor no node before it has, or a second node with an anchor;
/// - "found too many nodes", if a list of the document would have more than `max_nodes` entries;
/// - "found too many nodes, with aliases written out", if the document so far would have more than
///   `max_expanded`;
/// - "found an alias within the node that it names", if `max_expanded` is a bound;
///
/// or out of memory, if an allocation failed.
pub fn yaml_parser_bounded_events<'a, S: yaml_token_source_t>(
    parser: &'a mut yaml_parser_t<S>,
    bounds: yaml_node_bounds_t,
) -> yaml_parser_bounded_events_t<'a, S>
    requires between { between_documents parser.old ≡ true }
    ensures same_reference { result.parser.ghost_name ≡ parser.entry.ghost_name }
    ensures parser { result.parser.now ≡ parser.old }
    ensures composer { result.composer.composer
        ≡ new_event_composer (most_of (bound_or (magnitude parser.old.max_entries) bounds.max_nodes)) }
    ensures size { result.composer.size ≡ size_before bounds.max_expanded }
{
    let max_nodes = match bounds.max_nodes {
        Some(max) => max,
        None => parser.max_entries() as u32,
    };
    let composer = bounded_composer_t::new(parser.allocator(), max_nodes, bounds.max_expanded);
    yaml_parser_bounded_events_t { parser, composer }
}

impl<'a, S: yaml_token_source_t + Drop> Iterator for yaml_parser_bounded_events_t<'a, S> {
    type Item = Result<yaml_event_t, yaml_parser_t_prefix>;

    ghost next_gives = { λ s r t. YieldsBounded S.yaml_token_source_t
        (bounded_events s.parser.now s.composer) r (bounded_events t.parser.now t.composer)
        × (t.parser.ghost_name ≡ s.parser.ghost_name) };

    ghost remaining = { λ s. at_most (items_left S.bound s.parser.now) };

    /// Returns the next event, or the error that ends them. After the stream end event or an error: `None`.
    fn next(&mut self) -> Option<Result<yaml_event_t, yaml_parser_t_prefix>> {
        self.parser.remembered();
        let item = self.parser.next();
        if let Some(Ok(event)) = &item {
            if let Err(fault) = self.composer.take(event) {
                self.parser.keep_fault(fault);
                return Some(Err(fault));
            }
        }
        item
    }
}

impl<'a, S: yaml_token_source_t + Drop> FusedIterator for yaml_parser_bounded_events_t<'a, S> {}
