//! Large lists, over a scanner that computes their tokens: how much they give.

use crate::files::{Host, Table, count};
use crate::read::{gives_event, next_nodes};
use crate::sources::Growing;
use anyhow::{Context, Result};
use std::alloc::Global;
use std::fs;
use unsafe_libyaml::{
    yaml_parser_initialize, yaml_parser_t, yaml_scanner_source_t, yaml_token_source_t,
};

/// How large and deep the lists are.
const N: u64 = 100_000;

/// Compares the lists of the file `large`: a line `# TABLE` begins a table, the others are `NAME|LIST|TEXT`.
pub fn compare(rt: &impl Host) -> Result<u64> {
    let lines = fs::read_to_string(rt, "large")?;
    compare_vectors(rt, lines.as_str())
}

fn compare_vectors(rt: &impl Host, lines: &str) -> Result<u64> {
    let mut table = Table { name: "" };
    let (mut lists, mut differ) = (0u64, 0u64);
    for line in lines.lines() {
        if let Some((name, fields)) = table.vector(line) {
            differ = differ.saturating_add(compare_list(rt, table.name, name, fields)?);
            lists = lists.saturating_add(1);
        }
    }
    println!(rt; "large lists: {lists}, {differ} differ")?;
    Ok(differ)
}

fn compare_list(rt: &impl Host, table: &str, name: &str, fields: &str) -> Result<u64> {
    let (list, wanted) = fields.split_once('|').context("a line of no list")?;
    let text = given(rt.alloc(), table, list)?;
    Ok(count(rt, table, name, text.as_str() == wanted)?)
}

/// Returns the text of how much a list gives.
fn given(alloc: Global, table: &str, list: &str) -> Result<String> {
    let source = yaml_scanner_source_t::new(Growing::new(alloc, list, N), u64::MAX);
    if table == "large lists, parsed" {
        events_of(alloc, source)
    } else {
        documents_of(alloc, source)
    }
}

fn events_of<S: yaml_token_source_t + Drop>(alloc: Global, source: S) -> Result<String> {
    let mut parser = yaml_parser_initialize(alloc, source);
    text_of_events(alloc, &mut parser)
}

fn text_of_events<S: yaml_token_source_t>(
    alloc: Global,
    parser: &mut yaml_parser_t<S>,
) -> Result<String> {
    let events = count_events(parser);
    let end = text_of_end(alloc, parser)?;
    Ok(format!(in alloc; "{events} events{end}")?)
}

fn count_events<S: yaml_token_source_t>(parser: &mut yaml_parser_t<S>) -> u64 {
    let mut events = 0u64;
    for _ in 0..u64::MAX {
        if !gives_event(parser) {
            break;
        }
        events = events.saturating_add(1);
    }
    events
}

fn documents_of<S: yaml_token_source_t + Drop>(alloc: Global, source: S) -> Result<String> {
    let mut parser = yaml_parser_initialize(alloc, source);
    text_of_documents(alloc, &mut parser)
}

fn text_of_documents<S: yaml_token_source_t>(
    alloc: Global,
    parser: &mut yaml_parser_t<S>,
) -> Result<String> {
    let (documents, nodes) = count_documents(parser);
    let end = text_of_end(alloc, parser)?;
    Ok(format!(in alloc; "{documents} documents of {nodes} nodes{end}")?)
}

/// Counts the documents that have nodes, and the nodes of the first.
fn count_documents<S: yaml_token_source_t>(parser: &mut yaml_parser_t<S>) -> (u64, usize) {
    let (mut documents, mut first) = (0u64, 0usize);
    for _ in 0..u64::MAX {
        let nodes = match next_nodes(parser) {
            Some(Ok(nodes)) if nodes > 0 => nodes,
            _ => break,
        };
        documents = documents.saturating_add(1);
        if documents == 1 {
            first = nodes;
        }
    }
    (documents, first)
}

/// Returns the problem that a parser keeps, and where it is.
fn text_of_end<S: yaml_token_source_t>(alloc: Global, parser: &yaml_parser_t<S>) -> Result<String> {
    let prefix = parser.prefix();
    let Some(problem) = prefix.problem else {
        return Ok(String::new(alloc));
    };
    let index = prefix.problem_mark.index;
    Ok(format!(in alloc; ", {problem} at {index}")?)
}
