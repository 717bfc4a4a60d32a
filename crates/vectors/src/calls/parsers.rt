//! Parsers between documents and after a load.

use crate::calls::events::line_of;
use crate::calls::shown;
use crate::files::{Host, read_text};
use crate::read::{gives_event, next_nodes};
use crate::sources::Lines;
use anyhow::{Result, bail};
use std::alloc::Global;
use unsafe_libyaml::{
    yaml_error_type_t, yaml_event_t, yaml_parser_between_documents, yaml_parser_initialize,
    yaml_parser_parse, yaml_parser_t, yaml_scanner_source_t, yaml_token_source_t,
};

/// Whether the parser stands between documents after the next event, if there is one.
fn stands_between<S: yaml_token_source_t>(parser: &mut yaml_parser_t<S>) -> Option<bool> {
    gives_event(parser).then_some(yaml_parser_between_documents(parser))
}

fn stands<S: yaml_token_source_t + Drop>(alloc: Global, source: S) -> Result<String> {
    let mut parser = yaml_parser_initialize(alloc, source);
    let stands = stands_of(&mut parser);
    shown(alloc, &stands)
}

/// Where a parser stands before the first and after each of five events.
fn stands_of<S: yaml_token_source_t>(parser: &mut yaml_parser_t<S>) -> [Option<bool>; 6] {
    [
        Some(yaml_parser_between_documents(parser)),
        stands_between(parser),
        stands_between(parser),
        stands_between(parser),
        stands_between(parser),
        stands_between(parser),
    ]
}

fn goes_on<S: yaml_token_source_t + Drop>(alloc: Global, source: S) -> Result<String> {
    let mut parser = yaml_parser_initialize(alloc, source);
    text_after_load(alloc, &mut parser)
}

/// Shows how many nodes a load gives, the next event, and whether the parser then is between documents.
fn text_after_load<S: yaml_token_source_t>(
    alloc: Global,
    parser: &mut yaml_parser_t<S>,
) -> Result<String> {
    let nodes = next_nodes(parser);
    let line = next_line(alloc, parser)?;
    let is_between = yaml_parser_between_documents(parser);
    shown(alloc, &(nodes, line.as_str(), is_between))
}

fn next_line<S: yaml_token_source_t>(
    alloc: Global,
    parser: &mut yaml_parser_t<S>,
) -> Result<String> {
    let parsed = yaml_parser_parse(parser);
    line_of_parsed(alloc, &parsed)
}

fn line_of_parsed(
    alloc: Global,
    parsed: &Result<yaml_event_t, yaml_error_type_t>,
) -> Result<String> {
    match parsed {
        Ok(event) => line_of(alloc, event),
        Err(_) => bail!("no event"),
    }
}

/// Returns the text of what the calls of this name give.
pub fn given(rt: &impl Host, name: &str) -> Result<String> {
    let file = match name {
        "a parser between documents and in one" => "implicit_document.tokens",
        "an event after a load" => "directives_loaded.tokens",
        _ => bail!("no such parser"),
    };
    let lines = read_text(rt, "worked", file)?;
    given_of(rt.alloc(), name, lines.as_str())
}

fn given_of(alloc: Global, name: &str, lines: &str) -> Result<String> {
    let source = yaml_scanner_source_t::new(Lines::new(alloc, lines), u64::MAX);
    if name == "an event after a load" {
        goes_on(alloc, source)
    } else {
        stands(alloc, source)
    }
}
