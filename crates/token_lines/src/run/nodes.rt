//! Runs that write the texts of documents.
ghost use Rattle.std.specs.Prelude.{◌≡◌, ◌<◌, List, None, true, false};
ghost use Rattle.libyaml_types.specs.declared.event.yaml_event_t.{yaml_event_t};
ghost use Rattle.libyaml_types.specs.declared.token.yaml_token_t.{yaml_token_t};
ghost use Rattle.libyaml_events.specs.parsers.EventsLeft.{events_left};
ghost use Rattle.libyaml_events.specs.sources.History.{History, between_documents, has_failed, kept_fault};
ghost use Rattle.libyaml_events.specs.sources.RunToCome.{RunToCome};
ghost use Rattle.libyaml_grammar.specs.runs.Runs.{Ending};
ghost use Rattle.libyaml_graphs.specs.loads.Bounds.{bounded_loads};
ghost use Rattle.libyaml_loader.specs.document.Ids.{magnitude};
ghost use Rattle.token_lines.specs.nodes.LastLoad.{LastLoad, NodesOver, WritesKept};
ghost use Rattle.token_lines.specs.nodes.NodeRun.{WritesLoads};
ghost use Rattle.token_lines.specs.nodes.NodeStep.{IsKept, LoadTurn};

use super::{LastStep, Outcome, closed, run_end_t, show};
use crate::MAX_TOKENS;
use libyaml_events::{MEMORY_FAULT, yaml_parser_initialize, yaml_parser_t, yaml_token_source_t};
use libyaml_loader::yaml_parser_load;
use line_reading::yaml_line_source_t;
use line_writing::{line_refusal_t, write_document};
use std::alloc::Global;
use std::io::{BufRead, Write};

/// Writes the text of each document of the token lines, before anything of the next is read, and then the
/// text of the error, if there is one. Reads at most `MAX_TOKENS` tokens. If you need the reader back exactly
/// after the last line, call `write_nodes` over a `yaml_line_source_t`.
///
/// If memory runs out for a line, the error of a failed allocation follows the lines before it. The
/// writer is flushed before `Ended` and `Faulted`; after `OutputFailed` nothing is said of it.
pub fn run_nodes<R: BufRead + Drop, W: Write>(alloc: Global, reader: R, writer: &mut W) -> Outcome
    ensures { NodesOver R.remaining W.contents reader result (W.contents writer.old) (W.contents writer.new) }
{
    let source = yaml_line_source_t::new(alloc, reader, MAX_TOKENS);
    let mut parser = yaml_parser_initialize(alloc, source);
    write_nodes(&mut parser, writer).outcome()
}

/// Writes the text of each document that is to come, before the next is loaded, and then the text of the
/// error, if there is one, which is returned. The parser may have given documents before. The document
/// without root, which comes at the stream's end, writes nothing; an error that the parser keeps is
/// written again.
///
/// If memory runs out for a line, the error of a failed allocation follows the lines before it. The writer
/// is flushed before `Ended` and `Faulted`. After `OutputFailed`, and after the error of a line that found
/// no memory, the parser has loaded the document whose text was to be written: a further call goes on
/// after that document, the rest of whose text is lost.
pub fn write_nodes<S: yaml_token_source_t, W: Write>(
    parser: &mut yaml_parser_t<S>,
    writer: &mut W,
) -> run_end_t
    requires between { between_documents parser.old ≡ true }
    ensures kept { has_failed parser.old ≡ true
        → WritesKept result parser.old parser.new (W.contents writer.old) (W.contents writer.new) }
    ensures writes { (events : List yaml_event_t) (ending : Ending)
        → RunToCome S.known parser.old events ending
        → WritesLoads (S.may_break parser.new.source) result (W.contents writer.old) (W.contents writer.new)
        (bounded_loads (magnitude parser.old.max_entries) events ending) }
    // at the parser's last load each document's text had been written
    ensures in_turn { (asked : List yaml_token_t) (given : List yaml_event_t) → History parser.old asked given
        → LastLoad S.yaml_token_source_t W.contents (magnitude parser.old.max_entries) result parser.old
        parser.new (W.contents writer.old) (W.contents writer.new) asked given }
    ensures between { between_documents parser.new ≡ true }
    ensures bound { parser.new.max_entries ≡ parser.old.max_entries }
{
    loop {
        if let Some(last) = write_next(parser, writer) {
            return closed(&last, writer);
        }
    }
}

/// Writes the text of the next document. Returns `None` if more is to come.
fn write_next<S: yaml_token_source_t, W: Write>(
    parser: &mut yaml_parser_t<S>,
    writer: &mut W,
) -> Option<LastStep>
    requires between { between_documents parser.old ≡ true }
    ensures falls { result ≡ None → events_left S.bound parser.new < events_left S.bound parser.old }
    ensures between { between_documents parser.new ≡ true }
    ensures bound { parser.new.max_entries ≡ parser.old.max_entries }
    ensures kept { has_failed parser.old ≡ true → IsKept result (kept_fault parser.old)
        × (parser.new ≡ parser.old) × (writer.new ≡ writer.old) }
    ensures turn { has_failed parser.old ≡ false
        → LoadTurn S.yaml_token_source_t (magnitude parser.old.max_entries) result parser.old parser.new
        (W.contents writer.old) (W.contents writer.new) }
{
    let loaded = yaml_parser_load(parser);
    let Ok(document) = &loaded else {
        return Some(LastStep::Failed(*parser.prefix()));
    };
    if document.nodes().is_empty() {
        return Some(LastStep::Ended);
    }
    match write_document(parser.allocator(), document, writer) {
        Ok(()) => {}
        Err(line_refusal_t::Memory) => return Some(LastStep::Failed(MEMORY_FAULT)),
        Err(line_refusal_t::Output) => return Some(LastStep::OutputFailed),
    }
    let Ok(()) = show(parser, writer) else {
        return Some(LastStep::OutputFailed);
    };
    None
}
