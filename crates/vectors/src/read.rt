//! What a source gives call by call, as lines.

use anyhow::Result;
use std::alloc::Global;
use token_lines::{write_document, write_event, write_fault};
use unsafe_libyaml::{
    YAML_NO_ERROR, unnamed_yaml_event_t_data, yaml_document_t, yaml_error_type_t, yaml_event_t,
    yaml_parser_between_documents, yaml_parser_initialize, yaml_parser_load, yaml_parser_parse,
    yaml_parser_set_max_entries, yaml_parser_t, yaml_token_source_t,
};

/// More calls than any list takes.
const EVERY_CALL: u32 = 10_000;

/// What is read of a list.
#[derive(Copy, Clone)]
pub enum Given {
    Events,
    /// The documents, where each list of a document has at most so many entries, at least one.
    Nodes(i32),
}

/// Whether the calls over a source give these lines, and no event or document after them.
pub fn is_given<S: yaml_token_source_t + Drop>(
    alloc: Global,
    source: S,
    given: Given,
    wanted: &[u8],
) -> Result<bool> {
    let mut lines = Vec::new(alloc);
    let is_over = write_given(alloc, source, given, &mut lines);
    let is_wanted = lines.as_slice() == wanted;
    Ok(is_over? && is_wanted)
}

/// Writes what a source gives, and returns whether nothing comes after it.
fn write_given<S: yaml_token_source_t + Drop>(
    alloc: Global,
    source: S,
    given: Given,
    out: &mut Vec<u8>,
) -> Result<bool> {
    let mut parser = yaml_parser_initialize(alloc, source);
    if let Given::Nodes(most) = given {
        yaml_parser_set_max_entries(&mut parser, most.max(1));
    }
    write_calls(alloc, &mut parser, given, out)
}

fn write_calls<S: yaml_token_source_t>(
    alloc: Global,
    parser: &mut yaml_parser_t<S>,
    given: Given,
    out: &mut Vec<u8>,
) -> Result<bool> {
    for _ in 0..EVERY_CALL {
        if !write_call(alloc, parser, given, out)? {
            return Ok(is_over(parser));
        }
    }
    Ok(false)
}

/// Writes what one call returns, and returns whether more may come.
fn write_call<S: yaml_token_source_t>(
    alloc: Global,
    parser: &mut yaml_parser_t<S>,
    given: Given,
    out: &mut Vec<u8>,
) -> Result<bool> {
    let has_more = match given {
        Given::Events => write_parse(alloc, parser, out),
        Given::Nodes(_) => write_load(alloc, parser, out),
    };
    if has_more? {
        return Ok(true);
    }
    if parser.prefix().error != YAML_NO_ERROR {
        write_fault(parser.prefix(), out)?;
    }
    Ok(false)
}

fn write_parse<S: yaml_token_source_t>(
    alloc: Global,
    parser: &mut yaml_parser_t<S>,
    out: &mut Vec<u8>,
) -> Result<bool> {
    let parsed = yaml_parser_parse(parser);
    write_parsed(alloc, &parsed, out)
}

fn write_load<S: yaml_token_source_t>(
    alloc: Global,
    parser: &mut yaml_parser_t<S>,
    out: &mut Vec<u8>,
) -> Result<bool> {
    if !yaml_parser_between_documents(parser) {
        return Ok(false);
    }
    let loaded = yaml_parser_load(parser);
    write_loaded(alloc, &loaded, out)
}

fn is_empty(event: &yaml_event_t) -> bool {
    matches!(event.content, unnamed_yaml_event_t_data::NoEvent)
}

fn write_parsed(
    alloc: Global,
    parsed: &Result<yaml_event_t, yaml_error_type_t>,
    out: &mut Vec<u8>,
) -> Result<bool> {
    match parsed {
        Ok(event) if !is_empty(event) => {
            write_event(alloc, event, out)?;
            Ok(true)
        }
        _ => Ok(false),
    }
}

fn write_loaded(
    alloc: Global,
    loaded: &Result<yaml_document_t, yaml_error_type_t>,
    out: &mut Vec<u8>,
) -> Result<bool> {
    match loaded {
        Ok(document) if !document.nodes().is_empty() => {
            write_document(alloc, document, out)?;
            Ok(true)
        }
        _ => Ok(false),
    }
}

/// Whether this is an event, empty or not; none if it is an error.
fn is_answer_empty(parsed: &Result<yaml_event_t, yaml_error_type_t>) -> Option<bool> {
    match parsed {
        Ok(event) => Some(is_empty(event)),
        Err(_) => None,
    }
}

/// Whether the next call gives an event, and not the empty one.
pub fn gives_event<S: yaml_token_source_t>(parser: &mut yaml_parser_t<S>) -> bool {
    is_answer_empty(&yaml_parser_parse(parser)) == Some(false)
}

fn count_nodes(
    loaded: &Result<yaml_document_t, yaml_error_type_t>,
) -> Result<usize, yaml_error_type_t> {
    match loaded {
        Ok(document) => Ok(document.nodes().len()),
        Err(error) => Err(*error),
    }
}

/// Returns how many nodes the next document has; None where the parser stands within a document.
pub fn next_nodes<S: yaml_token_source_t>(
    parser: &mut yaml_parser_t<S>,
) -> Option<Result<usize, yaml_error_type_t>> {
    if !yaml_parser_between_documents(parser) {
        return None;
    }
    Some(count_nodes(&yaml_parser_load(parser)))
}

/// Whether the parser gives no further event, and no further document, or the error that it keeps.
fn is_over<S: yaml_token_source_t>(parser: &mut yaml_parser_t<S>) -> bool {
    let kept = parser.prefix().error;
    let is_over = is_answer_empty(&yaml_parser_parse(parser)) == Some(true);
    is_over && is_kept(parser, kept)
}

/// Whether the next load gives no document, or this error, if it is one.
fn is_kept<S: yaml_token_source_t>(parser: &mut yaml_parser_t<S>, kept: yaml_error_type_t) -> bool {
    match next_nodes(parser) {
        Some(Ok(nodes)) => nodes == 0 && kept == YAML_NO_ERROR,
        Some(Err(error)) => error == kept,
        None => false,
    }
}
