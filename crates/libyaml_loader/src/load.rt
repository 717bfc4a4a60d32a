//! The next document of a parser.

ghost use Rattle.libyaml_graphs.specs.loads.Linear.{size};
ghost use Rattle.std.specs.Prelude.{◌≤◌, ◌*◌, length};
ghost use Rattle.std.specs.Prelude.{◌≡◌, ◌<◌, ◌⊎◌, List, [], None, Ok, Err, IfOk, IfErr, true, false};
ghost use Rattle.libyaml_types.specs.declared.event.yaml_event_t.{yaml_event_t};
ghost use Rattle.libyaml_documents.specs.Documents.{empty_document};
ghost use Rattle.libyaml_events.specs.parsers.EventsLeft.{events_left};
ghost use Rattle.libyaml_grammar.specs.runs.Runs.{Ending};
ghost use Rattle.libyaml_events.specs.sources.RunToCome.{RunToCome, UnlessBroken};
ghost use Rattle.libyaml_events.specs.sources.History.{ForHistory, between_documents, is_over};
ghost use Rattle.libyaml_events.specs.sources.History.{has_failed, kept_fault};
ghost use Rattle.libyaml_graphs.specs.loads.Bounds.{next_bounded};
ghost use Rattle.libyaml_graphs.specs.loads.Loads.{left_over};
ghost use Rattle.libyaml_loader.specs.document.Ids.{magnitude};
ghost use Rattle.libyaml_events.specs.sources.CallsInTurn.{Took};
ghost use Rattle.libyaml_loader.specs.loads.Loading.{HasEnded, LoadsFrom};
ghost use Rattle.libyaml_loader.specs.loads.NextLoad.{Answers};
ghost use Rattle.libyaml_loader.specs.pushes.Composing.{IsSound};

use crate::composer::DocumentBuilder;
use crate::context::empty_document;
use crate::refusal::{has_failed, keep_fault};
use libyaml_documents::yaml_document_t;
use libyaml_events::{
    is_event, no_event, yaml_parser_parse_into, yaml_parser_t, yaml_token_source_t,
};
use libyaml_types::{yaml_error_type_t, yaml_event_t};

/// Returns the next document, or at the stream's end the document without root.
///
/// # Errors
///
/// The kind of an error, which the parser keeps for good: one of the parser; an alias whose anchor no node
/// before it has, or a second node with an anchor; out of memory, if an allocation failed or a list of the
/// document would have more than `max_entries` entries.
///
/// libyaml: `yaml_parser_load`.
pub fn yaml_parser_load<S: yaml_token_source_t>(
    parser: &mut yaml_parser_t<S>,
) -> Result<yaml_document_t, yaml_error_type_t>
    requires between { between_documents parser.old ≡ true }
    // an error that is kept is returned for good
    ensures kept { has_failed parser.old ≡ true → (result ≡ Err (kept_fault parser.old).error)
        × (parser.new ≡ parser.old) }
    // after the stream's end nothing changes
    ensures ended { is_over parser.old ≡ true → has_failed parser.old ≡ false
        → (result ≡ Ok (empty_document None [] false false)) × (parser.new ≡ parser.old) }
    ensures fails { IfErr result (λ x. (x ≡ (kept_fault parser.new).error) × (is_over parser.new ≡ true)) }
    ensures failed { IfErr result (λ _. has_failed parser.new ≡ true) }
    // with a document no error is kept
    ensures faultless { has_failed parser.old ≡ false → IfOk result (λ _. has_failed parser.new ≡ false) }
    ensures bound { parser.new.max_entries ≡ parser.old.max_entries }
    ensures between { between_documents parser.new ≡ true }
    // so a loop over the documents ends
    ensures falls { IfOk result (λ d. (d ≡ empty_document None [] false false)
        ⊎ (events_left S.bound parser.new < events_left S.bound parser.old)) }
    // over every source, by the events that were taken; a parser with a history keeps no error
    ensures no_fault { ForHistory parser.old (λ _ _. has_failed parser.old ≡ false) }
    ensures loads { has_failed parser.old ≡ false
        → LoadsFrom S.yaml_token_source_t (next_bounded (magnitude parser.old.max_entries)) left_over
        parser.old result parser.new }
    // nodes and the entries of their lists are together at most twice the events that were taken
    ensures linear { has_failed parser.old ≡ false → IfOk result (λ d. (taken : List yaml_event_t)
        × Took S.yaml_token_source_t parser.old parser.new taken × (size d.nodes ≤ 2 * length taken)) }
    // a document without nodes is returned only where the parser has ended
    ensures without_root { IfOk result (λ d. d.nodes ≡ []
        → ForHistory parser.old (λ _ _. HasEnded parser.new)) }
    // over a source that knows its tokens, by the run that is to come
    ensures next_load { (events : List yaml_event_t) (ending : Ending)
        → RunToCome S.known parser.old events ending
        → UnlessBroken S.may_break result parser.new
        (Answers S.known (next_bounded (magnitude parser.old.max_entries) events ending) result parser.new
        (left_over events) ending) }
{
    if has_failed(parser) {
        return Err(parser.prefix().error);
    }
    parser.remembered();
    let composer = DocumentBuilder::new(parser.allocator(), bound_of(parser));
    let mut event = no_event();
    next_document(parser, composer, &mut event)
}

/// Returns the next document, if no error is kept. Its events come in `event`, one after another.
///
/// libyaml: `yaml_parser_load`, `yaml_parser_load_document` and `yaml_parser_load_nodes`.
fn next_document<S: yaml_token_source_t>(
    parser: &mut yaml_parser_t<S>,
    mut composer: DocumentBuilder,
    event: &mut yaml_event_t,
) -> Result<yaml_document_t, yaml_error_type_t>
    requires none_open { composer.is_open ≡ false }
    requires sound { IsSound composer }
    ensures ended { is_over parser.old ≡ true → (result ≡ Ok (empty_document None [] false false))
        × (parser.new ≡ parser.old) }
    ensures falls { IfOk result (λ d. (d ≡ empty_document None [] false false)
        ⊎ (events_left S.bound parser.new < events_left S.bound parser.old)) }
    ensures fails { IfErr result (λ x. (x ≡ (kept_fault parser.new).error) × (is_over parser.new ≡ true)) }
    ensures failed { IfErr result (λ _. has_failed parser.new ≡ true) }
    ensures bound { parser.new.max_entries ≡ parser.old.max_entries }
    ensures between { between_documents parser.new ≡ true }
    ensures loads { LoadsFrom S.yaml_token_source_t (next_bounded composer.max_entries) left_over
        parser.old result parser.new }
{
    loop {
        yaml_parser_parse_into(parser, event)?;
        if !is_event(event) {
            return Ok(empty_document(parser.allocator()));
        }
        match composer.take_event(event) {
            Ok(None) => {}
            Ok(Some(closing)) => return Ok(composer.into_document(closing)),
            Err(_) => return Err(keep_fault(parser, composer.fault)),
        }
    }
}

/// How many entries each list may have.
pub(crate) fn bound_of<S>(parser: &yaml_parser_t<S>) -> u32
    ensures value { result ≡ magnitude parser.now.max_entries }
    ensures most { result ≤ 2147483647 }
{
    parser.max_entries() as u32
}
