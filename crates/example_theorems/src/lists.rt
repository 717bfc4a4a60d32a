//! What callers prove of loops by the contracts alone: over pushes of a list's tokens to a parser and to a
//! loader, and over a parser's events.
ghost use Rattle.std.specs.Prelude.{◌≡◌, IfOk, List, MatchResult, Some};
ghost use Rattle.libyaml_grammar.specs.runs.Runs.{Ending, Ends, IsRun};
ghost use Rattle.libyaml_types.specs.Fault.{Fault, fault_of};
ghost use Rattle.libyaml_types.specs.Source.{coming};
ghost use Rattle.example_theorems.specs.Answer.{FailsSo, GivesLoads, GivesRun, LoadsFail};

use libyaml_documents::yaml_document_t;
use libyaml_events::laws::items::items_in_turn;
use libyaml_events::laws::pushes::of_pushed;
use libyaml_events::{MEMORY_FAULT, yaml_parser_initialize, yaml_push_parser_t};
use libyaml_loader::laws::of_loaded;
use libyaml_loader::yaml_push_loader_t;
use libyaml_types::{yaml_event_t, yaml_parser_t_prefix, yaml_token_source_t, yaml_token_t};
use std::alloc::Global;

/// Pushes each token of the list, and returns the events, or the error.
pub fn events_of(
    alloc: Global,
    tokens: Vec<yaml_token_t>,
) -> Result<Vec<yaml_event_t>, yaml_parser_t_prefix>
    ensures { (source : Fault) → MatchResult result (λ events. GivesRun tokens.items source events.items)
        (λ prefix. FailsSo tokens.items source (fault_of prefix)) }
{
    let mut parser = yaml_push_parser_t::new(alloc);
    let mut events = Vec::new(alloc);
    for token in tokens {
        if parser.push(token, &mut events).is_err() {
            of_pushed();
            return Err(*parser.prefix());
        }
    }
    of_pushed();
    Ok(events)
}

/// Pushes each token of the list, and returns the documents, or the error.
pub fn documents_of(
    alloc: Global,
    tokens: Vec<yaml_token_t>,
) -> Result<Vec<yaml_document_t>, yaml_parser_t_prefix>
    ensures { (source : Fault) → MatchResult result
        (λ documents. GivesLoads tokens.items source documents.items)
        (λ prefix. LoadsFail tokens.items source (fault_of prefix)) }
{
    let mut loader = yaml_push_loader_t::new(alloc);
    let mut documents = Vec::new(alloc);
    for token in tokens {
        if loader.push(token, &mut documents).is_err() {
            of_loaded();
            return Err(*loader.prefix());
        }
    }
    of_loaded();
    Ok(documents)
}

/// Returns the events of a parser over this source, collected by a `for` loop, or the error that ended them.
pub fn collected_events<S: yaml_token_source_t + Drop>(
    alloc: Global,
    source: S,
) -> Result<Vec<yaml_event_t>, yaml_parser_t_prefix>
    ensures { (l : List yaml_token_t) (f : Fault) (e : List yaml_event_t) (x : Ending) → IsRun l f e x
        → S.known source ≡ Some (coming l f) → IfOk result (λ events. (events.items ≡ e) × (x ≡ Ends)) }
{
    items_in_turn::<S>();
    let mut events = Vec::new(alloc);
    for item in yaml_parser_initialize(alloc, source) {
        if events.push(item?).is_err() {
            return Err(MEMORY_FAULT);
        }
    }
    Ok(events)
}
