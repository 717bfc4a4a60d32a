//! All events of a source at once.
ghost use Rattle.std.specs.Prelude.{◌≡◌, ◌≢◌, ◌++◌, ◌∷◌, List, Some, true, IfOk, IfErr};
ghost use Rattle.libyaml_grammar.specs.partial.PartialEvents.{partial_events};
ghost use Rattle.libyaml_grammar.specs.partial.PartialFaults.{fault};
ghost use Rattle.libyaml_grammar.specs.partial.PartialTrees.{PartialTree};
ghost use Rattle.libyaml_grammar.specs.grammar.Events.{Event, events};
ghost use Rattle.libyaml_types.specs.Fault.{Fault};
ghost use Rattle.libyaml_grammar.specs.partial.Fits.{Fits};
ghost use Rattle.libyaml_grammar.specs.grammar.Order.{in_order};
ghost use Rattle.libyaml_grammar.specs.runs.Runs.{Ending, Ends, Fails, IsRun, is_after_properties};
ghost use Rattle.libyaml_types.specs.Source.{coming};
ghost use Rattle.libyaml_grammar.specs.grammar.Tokens.{Token};
ghost use Rattle.libyaml_grammar.specs.grammar.Trees.{Stream, tokens};
ghost use Rattle.unsafe_libyaml.specs.ParsesOnto.{ParsesOnto};
ghost use Rattle.unsafe_libyaml.specs.WholeRun.{Gathers, RunsTo};

use libyaml_events::{
    is_stream_end, no_event, yaml_parser_initialize, yaml_parser_parse_into, yaml_parser_t,
    yaml_parser_t_prefix, yaml_token_source_t,
};
use libyaml_types::{yaml_error_type_t, yaml_event_t};
use std::alloc::{AllocError, Global};

/// All events of a source, and how they ended.
#[derive(Drop)]
pub struct yaml_run_t {
    /// The events in their order.
    pub events: Vec<yaml_event_t>,
    /// The error after them, or `None` if the last is the stream's end.
    pub fault: Option<yaml_parser_t_prefix>,
}

/// Returns all events of a source, and how they ended: the calls of `yaml_parser_parse` until the stream's
/// end or an error, as one value.
///
/// # Errors
///
/// `AllocError` if an allocation fails, or if the source's error is out of memory.
///
/// libyaml: a loop over `yaml_parser_parse`.
pub fn yaml_parser_parse_all<S: yaml_token_source_t + Drop>(
    alloc: Global,
    source: S,
) -> Result<yaml_run_t, AllocError>
    // the tokens of a tree in order give its events, and the end
    ensures of_tree { (t : Stream) (f : Fault) → in_order t ≡ true
        → S.known source ≡ Some (coming (tokens t) f)
        → IfOk result (λ run. RunsTo S.yaml_token_source_t source run (events t) Ends) }
    // a partial tree that fits gives its events, and its error
    ensures of_partial_tree { (before : List Token) (token : Token) (following : List Token) (c : PartialTree)
        (f : Fault) → Fits before token c → is_after_properties c following ≡ true
        → S.known source ≡ Some (coming (before ++ token ∷ following) f)
        → IfOk result (λ run. RunsTo S.yaml_token_source_t source run (partial_events c token)
        (Fails (fault c token.content token.start_mark))) }
    // any list of tokens gives its run
    ensures of_list { (l : List Token) (f : Fault) (e : List Event) (x : Ending) → IsRun l f e x
        → S.known source ≡ Some (coming l f)
        → IfOk result (λ run. RunsTo S.yaml_token_source_t source run e x) }
    // over every source, also one that does not know its tokens
    ensures gathers { IfOk result (λ run. Gathers S.gives source run) }
{
    let mut parser = yaml_parser_initialize(alloc, source);
    let mut events = Vec::new(alloc);
    loop {
        match parse_onto(&mut parser, &mut events)? {
            Ok(is_last) => {
                if is_last {
                    return Ok(yaml_run_t {
                        events,
                        fault: None,
                    });
                }
            }
            Err(_) => return failed_run(events, *parser.prefix()),
        }
    }
}

/// Parses the next event into a place at the list's end, and returns whether it is the stream's end. After a
/// error the place is gone.
fn parse_onto<S: yaml_token_source_t>(
    parser: &mut yaml_parser_t<S>,
    events: &mut Vec<yaml_event_t>,
) -> Result<Result<bool, yaml_error_type_t>, AllocError>
    ensures { IfOk result (λ is_last. ParsesOnto S.yaml_token_source_t parser.old
        events.old.items is_last parser.new events.new.items) }
{
    let place = events.len();
    events.push(no_event())?;
    match yaml_parser_parse_into(parser, &mut events[place]) {
        Ok(()) => Ok(Ok(is_stream_end(&events[place]))),
        Err(error) => {
            let _ = events.pop();
            Ok(Err(error))
        }
    }
}

/// Returns the run of these events, which this error ended; out of memory becomes `AllocError`.
fn failed_run(
    events: Vec<yaml_event_t>,
    fault: yaml_parser_t_prefix,
) -> Result<yaml_run_t, AllocError>
    ensures ok { IfOk result (λ run. (run.events ≡ events) × (run.fault ≡ Some fault)
        × (fault.error ≢ yaml_error_type_t.YAML_MEMORY_ERROR)) }
    ensures memory { IfErr result (λ _. fault.error ≡ yaml_error_type_t.YAML_MEMORY_ERROR) }
{
    let fault = unless_memory(fault)?;
    Ok(yaml_run_t {
        events,
        fault: Some(fault),
    })
}

/// Returns this error.
///
/// # Errors
///
/// The error is that memory ran out.
pub(crate) fn unless_memory(fault: yaml_parser_t_prefix) -> Result<yaml_parser_t_prefix, AllocError>
    ensures ok { IfOk result (λ f. (f ≡ fault) × (fault.error ≢ yaml_error_type_t.YAML_MEMORY_ERROR)) }
    ensures memory { IfErr result (λ _. fault.error ≡ yaml_error_type_t.YAML_MEMORY_ERROR) }
{
    match fault.error {
        yaml_error_type_t::YAML_MEMORY_ERROR => Err(AllocError),
        _ => Ok(fault),
    }
}
