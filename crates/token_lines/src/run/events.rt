//! Runs that write the lines of events.
ghost use Rattle.std.specs.Prelude.{◌≡◌, ◌<◌, List, Some, None, true, false};
ghost use Rattle.libyaml_types.specs.declared.event.yaml_event_t.{yaml_event_t};
ghost use Rattle.libyaml_types.specs.declared.token.yaml_token_t.{yaml_token_t};
ghost use Rattle.libyaml_events.specs.parsers.EventsLeft.{events_left};
ghost use Rattle.libyaml_events.specs.sources.History.{History, is_over};
ghost use Rattle.libyaml_events.specs.sources.RunToCome.{RunToCome};
ghost use Rattle.libyaml_grammar.specs.runs.Runs.{Ending};
ghost use Rattle.token_lines.specs.events.EventRun.{event_lines};
ghost use Rattle.token_lines.specs.events.EventStep.{Turn};
ghost use Rattle.token_lines.specs.events.LastCall.{LastCall, NothingLeft, RunsOver};
ghost use Rattle.token_lines.specs.lines.LineRun.{Writes};

use super::{LastStep, Outcome, closed, run_end_t, show};
use crate::MAX_TOKENS;
use libyaml_events::{
    MEMORY_FAULT, is_event, is_stream_end, no_event, yaml_parser_initialize,
    yaml_parser_parse_into, yaml_parser_t, yaml_token_source_t,
};
use libyaml_types::yaml_event_t;
use line_reading::yaml_line_source_t;
use line_writing::{append_event, write_line};
use std::alloc::Global;
use std::io::{BufRead, Write};

/// Writes the line of each event of the token lines, before the next event is parsed, and then the text of
/// the error, if there is one. Reads at most `MAX_TOKENS` tokens. If you need the reader back exactly after
/// the last line, call `write_events` over a `yaml_line_source_t`.
///
/// If memory runs out for a line, the error of a failed allocation is written. The writer is flushed
/// before `Ended` and `Faulted`; after `OutputFailed` nothing is said of it.
pub fn run_events<R: BufRead + Drop, W: Write>(alloc: Global, reader: R, writer: &mut W) -> Outcome
    ensures { RunsOver R.remaining W.contents reader result (W.contents writer.old) (W.contents writer.new) }
{
    let source = yaml_line_source_t::new(alloc, reader, MAX_TOKENS);
    let mut parser = yaml_parser_initialize(alloc, source);
    write_events(&mut parser, writer).outcome()
}

/// Writes the line of each event that is to come, before the next event is parsed, and then the text
/// of the error, if there is one, which is returned. The parser may have given events before; after the
/// stream end event or an error nothing is left to write, and `Ended` is returned.
///
/// If memory runs out for a line, the error of a failed allocation is written. The writer is flushed
/// before `Ended` and `Faulted`. After `OutputFailed`, and after the error of a line that found no
/// memory, the parser has given the event whose line was to be written: a further call goes on after
/// that event, whose line is lost.
pub fn write_events<S: yaml_token_source_t, W: Write>(
    parser: &mut yaml_parser_t<S>,
    writer: &mut W,
) -> run_end_t
    ensures ended { is_over parser.old ≡ true
        → NothingLeft result parser.old parser.new (W.contents writer.old) (W.contents writer.new) }
    ensures writes { (events : List yaml_event_t) (ending : Ending)
        → RunToCome S.known parser.old events ending
        → Writes (S.may_break parser.new.source) result (W.contents writer.old) (W.contents writer.new)
        (event_lines events) ending }
    // at the parser's last call each event's line had been written
    ensures in_turn { is_over parser.old ≡ false → (asked : List yaml_token_t) (given : List yaml_event_t)
        → History parser.old asked given
        → LastCall S.gives W.contents result parser.old parser.new (W.contents writer.old)
        (W.contents writer.new) asked given }
    ensures bound { parser.new.max_entries ≡ parser.old.max_entries }
{
    let mut line = String::new(parser.allocator());
    let mut event = no_event();
    loop {
        if let Some(last) = write_next(parser, &mut event, &mut line, writer) {
            return closed(&last, writer);
        }
    }
}

/// Writes the line of the next event, which is put into `event`, and whose text is made in `line`. Returns
/// `None` if more is to come.
fn write_next<S: yaml_token_source_t, W: Write>(
    parser: &mut yaml_parser_t<S>,
    event: &mut yaml_event_t,
    line: &mut String,
    writer: &mut W,
) -> Option<LastStep>
    ensures falls { result ≡ None → events_left S.bound parser.new < events_left S.bound parser.old }
    ensures ended { is_over parser.old ≡ true → (result ≡ Some LastStep.Ended) × (parser.new ≡ parser.old)
        × (writer.new ≡ writer.old) }
    ensures turn { is_over parser.old ≡ false → (asked : List yaml_token_t) (given : List yaml_event_t)
        → History parser.old asked given
        → Turn S.gives result parser.old parser.new (W.contents writer.old) (W.contents writer.new) asked
        given }
    ensures bound { parser.new.max_entries ≡ parser.old.max_entries }
{
    let parsed = yaml_parser_parse_into(parser, event);
    let Ok(()) = parsed else {
        return Some(LastStep::Failed(*parser.prefix()));
    };
    if !is_event(event) {
        return Some(LastStep::Ended);
    }
    line.clear();
    let Ok(()) = append_event(line, event) else {
        return Some(LastStep::Failed(MEMORY_FAULT));
    };
    let Ok(()) = write_line(line, writer) else {
        return Some(LastStep::OutputFailed);
    };
    if is_stream_end(event) {
        return Some(LastStep::Ended);
    }
    let Ok(()) = show(parser, writer) else {
        return Some(LastStep::OutputFailed);
    };
    None
}
