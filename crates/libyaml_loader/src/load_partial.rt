//! A load that gives what it has of a document when it fails.
ghost use Rattle.std.specs.Prelude.{◌≡◌, ◌<◌, ◌≤◌, ◌*◌, ◌⊎◌, List, [], length, None, Ok, Err, IfOk, IfErr};
ghost use Rattle.std.specs.Prelude.{option_map, string_bytes, true, false};
ghost use Rattle.libyaml_types.specs.Types.{event_anchor};
ghost use Rattle.libyaml_types.specs.declared.event.yaml_event_t.{yaml_event_t};
ghost use Rattle.libyaml_documents.specs.Documents.{empty_document};
ghost use Rattle.libyaml_events.specs.parsers.EventsLeft.{events_left};
ghost use Rattle.libyaml_events.specs.sources.CallsInTurn.{Took};
ghost use Rattle.libyaml_events.specs.sources.History.{ForHistory, between_documents, has_failed, is_over};
ghost use Rattle.libyaml_events.specs.sources.History.{kept_fault};
ghost use Rattle.libyaml_events.specs.sources.RunToCome.{RunToCome, UnlessBroken};
ghost use Rattle.libyaml_grammar.specs.runs.Runs.{Ending};
ghost use Rattle.libyaml_graphs.specs.loads.Bounds.{next_bounded};
ghost use Rattle.libyaml_graphs.specs.loads.Linear.{size};
ghost use Rattle.libyaml_graphs.specs.loads.Loads.{left_over};
ghost use Rattle.libyaml_loader.specs.document.Ids.{magnitude};
ghost use Rattle.libyaml_loader.specs.loads.Loading.{HasEnded, LoadsFrom};
ghost use Rattle.libyaml_loader.specs.loads.NextLoad.{Answers};
ghost use Rattle.libyaml_loader.specs.loads.PartialLoad.{HalfOf, as_load, named_by};
ghost use Rattle.libyaml_loader.specs.pushes.Composing.{IsSound};

use crate::composer::DocumentBuilder;
use crate::context::empty_document;
use crate::load::bound_of;
use crate::refusal::{has_failed, keep_fault};
use libyaml_documents::yaml_document_t;
use libyaml_events::{
    is_event, no_event, yaml_named_error_t, yaml_parser_parse_named, yaml_parser_t,
    yaml_token_source_t,
};
use libyaml_types::{ZERO_MARK, unnamed_yaml_event_t_data, yaml_error_type_t, yaml_event_t};
use std::alloc::Global;
use std::mem;

/// What a load gives that failed.
#[derive(Drop)]
pub struct yaml_partial_t {
    /// The kind of the error, which the parser keeps.
    pub error: yaml_error_type_t,
    /// The anchor, alias or undefined tag handle that the error is about.
    pub name: Option<String>,
    /// The document that was open, with its nodes so far. Its open collections, and the document, end where
    /// the last event before the error does; a key that waited has an empty plain scalar as its value, unless
    /// the list of nodes is full.
    pub document: Option<yaml_document_t>,
}

/// Returns the next document as `yaml_parser_load` does, and after an error also what it has of a document.
///
/// # Errors
///
/// Those of `yaml_parser_load`, with the document that is open there. The document is missing if none is
/// open, if an allocation failed, or if the parser kept the error already.
pub fn yaml_parser_load_partial<S: yaml_token_source_t>(
    parser: &mut yaml_parser_t<S>,
) -> Result<yaml_document_t, yaml_partial_t>
    requires between { between_documents parser.old ≡ true }
    // an error that is kept is returned for good
    ensures kept { has_failed parser.old ≡ true → (result ≡ Err (record {
      error = (kept_fault parser.old).error;
      name = None;
      document = None;
    })) × (parser.new ≡ parser.old) }
    ensures ended { is_over parser.old ≡ true → has_failed parser.old ≡ false
        → (result ≡ Ok (empty_document None [] false false)) × (parser.new ≡ parser.old) }
    ensures fails { IfErr result (λ p. (p.error ≡ (kept_fault parser.new).error)
        × (is_over parser.new ≡ true)) }
    ensures failed { IfErr result (λ _. has_failed parser.new ≡ true) }
    ensures faultless { has_failed parser.old ≡ false → IfOk result (λ _. has_failed parser.new ≡ false) }
    ensures bound { parser.new.max_entries ≡ parser.old.max_entries }
    ensures between { between_documents parser.new ≡ true }
    ensures falls { IfOk result (λ d. (d ≡ empty_document None [] false false)
        ⊎ (events_left S.bound parser.new < events_left S.bound parser.old)) }
    ensures no_fault { ForHistory parser.old (λ _ _. has_failed parser.old ≡ false) }
    // what `yaml_parser_load` promises
    ensures loads { has_failed parser.old ≡ false
        → LoadsFrom S.yaml_token_source_t (next_bounded (magnitude parser.old.max_entries)) left_over
        parser.old (as_load result) parser.new }
    ensures linear { has_failed parser.old ≡ false → IfOk result (λ d. (taken : List yaml_event_t)
        × Took S.yaml_token_source_t parser.old parser.new taken × (size d.nodes ≤ 2 * length taken)) }
    ensures without_root { IfOk result (λ d. d.nodes ≡ []
        → ForHistory parser.old (λ _ _. HasEnded parser.new)) }
    ensures next_load { (events : List yaml_event_t) (ending : Ending)
        → RunToCome S.known parser.old events ending
        → UnlessBroken S.may_break (as_load result) parser.new
        (Answers S.known (next_bounded (magnitude parser.old.max_entries) events ending) (as_load result)
        parser.new (left_over events) ending) }
    // and the document that was open
    ensures half { has_failed parser.old ≡ false → IfErr result (λ p. HalfOf S.yaml_token_source_t
        (magnitude parser.old.max_entries) parser.old parser.new p) }
{
    if has_failed(parser) {
        return Err(yaml_partial_t {
            error: parser.prefix().error,
            name: None,
            document: None,
        });
    }
    parser.remembered();
    let mut composer = DocumentBuilder::new(parser.allocator(), bound_of(parser));
    let mut event = no_event();
    next_or_half(parser, &mut composer, &mut event)
}

/// Returns the next document, if no error is kept. Its events come in `event`, one after another.
fn next_or_half<S: yaml_token_source_t>(
    parser: &mut yaml_parser_t<S>,
    composer: &mut DocumentBuilder,
    event: &mut yaml_event_t,
) -> Result<yaml_document_t, yaml_partial_t>
    requires none_open { composer.old.is_open ≡ false }
    requires sound { IsSound composer.old }
    ensures ended { is_over parser.old ≡ true → (result ≡ Ok (empty_document None [] false false))
        × (parser.new ≡ parser.old) }
    ensures falls { IfOk result (λ d. (d ≡ empty_document None [] false false)
        ⊎ (events_left S.bound parser.new < events_left S.bound parser.old)) }
    ensures fails { IfErr result (λ p. (p.error ≡ (kept_fault parser.new).error)
        × (is_over parser.new ≡ true)) }
    ensures failed { IfErr result (λ _. has_failed parser.new ≡ true) }
    ensures bound { parser.new.max_entries ≡ parser.old.max_entries }
    ensures between { between_documents parser.new ≡ true }
    ensures loads { LoadsFrom S.yaml_token_source_t (next_bounded composer.old.max_entries) left_over
        parser.old (as_load result) parser.new }
    ensures half { IfErr result (λ p. HalfOf S.yaml_token_source_t composer.old.max_entries parser.old
        parser.new p) }
{
    let mut end_mark = ZERO_MARK;
    loop {
        if let Err(yaml_named_error_t { error, handle }) = yaml_parser_parse_named(parser, event) {
            let document = composer.end_half(end_mark);
            return Err(yaml_partial_t {
                error,
                name: handle,
                document,
            });
        }
        if !is_event(event) {
            return Ok(empty_document(parser.allocator()));
        }
        if let Some(fault) = composer.event_fault(event) {
            let error = keep_fault(parser, fault);
            let document = composer.end_half(end_mark);
            let name = take_name(error, event, parser.allocator());
            return Err(yaml_partial_t {
                error,
                name,
                document,
            });
        }
        end_mark = event.end_mark;
        match composer.take_event(event) {
            Ok(None) => {}
            Ok(Some(closing)) => return Ok(composer.end(closing)),
            Err(_) => {
                let error = keep_fault(parser, composer.fault);
                return Err(yaml_partial_t {
                    error,
                    name: None,
                    document: None,
                });
            }
        }
    }
}

/// Moves the anchor or alias out of an event whose error is about it. If a list is full, there is none.
fn take_name(error: yaml_error_type_t, event: &mut yaml_event_t, alloc: Global) -> Option<String>
    ensures { option_map string_bytes result ≡ named_by error (event_anchor event.old.content) }
{
    if let yaml_error_type_t::YAML_MEMORY_ERROR = error {
        return None;
    }
    match &mut event.content {
        unnamed_yaml_event_t_data::Alias(alias) => {
            Some(mem::replace(&mut alias.anchor, String::new(alloc)))
        }
        unnamed_yaml_event_t_data::Scalar(scalar) => scalar.anchor.take(),
        unnamed_yaml_event_t_data::SequenceStart(start) => start.anchor.take(),
        unnamed_yaml_event_t_data::MappingStart(start) => start.anchor.take(),
        _ => None,
    }
}
