//! Runs that write lines.

ghost use Rattle.token_lines.specs.events.LastCall.{RunsOver};
ghost use Rattle.token_lines.specs.nodes.LastLoad.{NodesOver};

use std::alloc::Global;
use std::io::{BufRead, Write};
use token_lines::{Outcome, run_events, run_nodes};

/// Writes the lines of a reader's events.
pub fn lines_of_reader<R: BufRead + Drop, W: Write>(
    alloc: Global,
    reader: R,
    writer: &mut W,
) -> Outcome
    ensures { RunsOver R.remaining W.contents reader result (W.contents writer.old) (W.contents writer.new) }
{
    run_events(alloc, reader, writer)
}

/// Writes the texts of a reader's documents.
pub fn texts_of_reader<R: BufRead + Drop, W: Write>(
    alloc: Global,
    reader: R,
    writer: &mut W,
) -> Outcome
    ensures { NodesOver R.remaining W.contents reader result (W.contents writer.old) (W.contents writer.new) }
{
    run_nodes(alloc, reader, writer)
}
