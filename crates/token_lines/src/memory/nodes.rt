//! The lines of documents and their nodes, in memory.
ghost use Rattle.token_lines.specs.lines.InMemory.{NodesInMemory};

use super::{hand_out, memory_run_t};
use crate::run::write_nodes;
use libyaml_events::yaml_parser_initialize;
use line_reading::yaml_line_source_t;
use std::alloc::Global;

/// Runs over these token lines in the same way as `events_in_memory`, and puts the lines of their documents
/// and nodes into `out`.
pub fn nodes_in_memory(
    alloc: Global,
    tokens: &[u8],
    out: &mut [u8],
    max_tokens: u64,
) -> memory_run_t
    ensures { NodesInMemory tokens.now max_tokens out.old out.new result }
{
    let source = yaml_line_source_t::new(alloc, tokens, max_tokens);
    let mut parser = yaml_parser_initialize(alloc, source);
    let mut bytes = Vec::new(alloc);
    let end = write_nodes(&mut parser, &mut bytes);
    hand_out(&end, bytes.as_slice(), out)
}
