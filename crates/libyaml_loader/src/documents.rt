//! An iterator over the documents of a parser.
ghost use Rattle.std.specs.Prelude.{◌≡◌, true};
ghost use Rattle.std.specs.Iterator.{at_most};
ghost use Rattle.libyaml_events.specs.sources.History.{between_documents};
ghost use Rattle.libyaml_events.specs.sources.Iterates.{items_left};
ghost use Rattle.libyaml_loader.specs.loads.LoadsInTurn.{YieldsDocument};

use crate::load::yaml_parser_load;
use crate::refusal::has_failed;
use libyaml_documents::yaml_document_t;
use libyaml_events::{yaml_parser_t, yaml_parser_t_prefix, yaml_token_source_t};
use std::iter::FusedIterator;

/// The documents that a parser has still to load, in their order: what `yaml_parser_documents` returns.
#[derive(Drop)]
pub struct yaml_parser_documents_t<'a, S> {
    /// The parser that loads them.
    pub parser: &'a mut yaml_parser_t<S>,
}

/// Returns an iterator over the documents that the parser has still to load.
///
/// It yields each document as `yaml_parser_load` returns it, or, once, the whole error. After the last
/// document or an error it yields no more: never the document without nodes. The parser must stand between
/// documents (`yaml_parser_between_documents`).
///
/// libyaml: a loop over `yaml_parser_load`.
pub fn yaml_parser_documents<'a, S: yaml_token_source_t>(
    parser: &'a mut yaml_parser_t<S>,
) -> yaml_parser_documents_t<'a, S>
    requires between { between_documents parser.old ≡ true }
    ensures same_reference { result.parser.ghost_name ≡ parser.entry.ghost_name }
    ensures parser { result.parser.now ≡ parser.old }
{
    yaml_parser_documents_t { parser }
}

impl<'a, S: yaml_token_source_t> Iterator for yaml_parser_documents_t<'a, S> {
    type Item = Result<yaml_document_t, yaml_parser_t_prefix>;

    ghost can_next = { λ s. between_documents s.parser.now ≡ true };

    ghost next_gives = { λ s r t. YieldsDocument S.yaml_token_source_t s.parser.now r t.parser.now
        × (t.parser.ghost_name ≡ s.parser.ghost_name) };

    ghost remaining = { λ s. at_most (items_left S.bound s.parser.now) };

    /// Returns the next document, or the error that ends them. After the last document or an error: `None`.
    fn next(&mut self) -> Option<Result<yaml_document_t, yaml_parser_t_prefix>> {
        if has_failed(self.parser) {
            return None;
        }
        self.parser.remembered();
        match yaml_parser_load(self.parser) {
            Ok(document) => {
                if document.nodes().is_empty() {
                    return None;
                }
                Some(Ok(document))
            }
            Err(_) => Some(Err(*self.parser.prefix())),
        }
    }
}

impl<'a, S: yaml_token_source_t> FusedIterator for yaml_parser_documents_t<'a, S> {}
