//! The lines of events, in memory.
ghost use Rattle.token_lines.specs.lines.InMemory.{EventsInMemory};

use super::{hand_out, memory_run_t};
use crate::run::write_events;
use libyaml_events::yaml_parser_initialize;
use line_reading::yaml_line_source_t;
use std::alloc::Global;

/// Runs over these token lines, of which it reads at most `max_tokens`, and puts the lines of their events
/// into `out`, followed by the text of an error, if there is one: as many bytes as `out` has room for. The
/// bytes of `out` that follow them stay as they are.
///
/// If an allocation fails, the run's only text is that of this error.
pub fn events_in_memory(
    alloc: Global,
    tokens: &[u8],
    out: &mut [u8],
    max_tokens: u64,
) -> memory_run_t
    ensures { EventsInMemory tokens.now max_tokens out.old out.new result }
{
    let source = yaml_line_source_t::new(alloc, tokens, max_tokens);
    let mut parser = yaml_parser_initialize(alloc, source);
    let mut bytes = Vec::new(alloc);
    let end = write_events(&mut parser, &mut bytes);
    hand_out(&end, bytes.as_slice(), out)
}
