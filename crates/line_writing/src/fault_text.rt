//! Errors as lines.
ghost use Rattle.std.specs.Prelude.{◌≡◌, OnOk, IsOkUnless, Some};
ghost use Rattle.std.specs.Io.KnownBytes.{Appends};
ghost use Rattle.libyaml_types.specs.Fault.{fault_of};
ghost use Rattle.line_writing.specs.FaultText.{fault_kind, problem_line};
ghost use Rattle.line_writing.specs.FaultText.{context_line, fault_text};

use crate::field_text::ABSENT;
use crate::refusal::line_refusal_t;
use libyaml_types::{yaml_error_type_t, yaml_mark_t, yaml_parser_t_prefix};
use std::io::Write;

/// Writes the text of an error: its line, and the line of its context if there is one. Takes no memory.
///
/// # Errors
///
/// Only `Output`, after which nothing is said of the writer.
pub fn write_fault<W: Write>(
    prefix: &yaml_parser_t_prefix,
    writer: &mut W,
) -> Result<(), line_refusal_t>
    ensures ok { OnOk result (Appends (W.contents writer.old) (W.contents writer.new)
        (fault_text (fault_of prefix.now))) }
    ensures output { IsOkUnless result line_refusal_t.Output }
{
    write_problem(prefix, writer)?;
    match prefix.context {
        Some(context) => write_context(context, prefix.context_mark, writer),
        None => Ok(()),
    }
}

fn write_problem<W: Write>(
    prefix: &yaml_parser_t_prefix,
    writer: &mut W,
) -> Result<(), line_refusal_t>
    ensures ok { OnOk result (Appends (W.contents writer.old) (W.contents writer.new)
        (problem_line (fault_of prefix.now))) }
    ensures output { IsOkUnless result line_refusal_t.Output }
{
    let kind = kind_name(prefix.error);
    let yaml_mark_t {
        index,
        line,
        column,
    } = prefix.problem_mark;
    let problem = prefix.problem.unwrap_or(ABSENT);
    writeln!(writer, "FAULT {kind} {index}:{line}:{column} {problem}").map_err(
        |_| line_refusal_t::Output,
    )
}

fn write_context<W: Write>(
    context: &str,
    mark: yaml_mark_t,
    writer: &mut W,
) -> Result<(), line_refusal_t>
    ensures ok { OnOk result (Appends (W.contents writer.old) (W.contents writer.new)
        (context_line (Some context.now) mark)) }
    ensures output { IsOkUnless result line_refusal_t.Output }
{
    let yaml_mark_t {
        index,
        line,
        column,
    } = mark;
    writeln!(writer, "CONTEXT {index}:{line}:{column} {context}").map_err(
        |_| line_refusal_t::Output,
    )
}

fn kind_name(error: yaml_error_type_t) -> &'static str
    ensures { result.now ≡ fault_kind error }
{
    match error {
        yaml_error_type_t::YAML_NO_ERROR => "none",
        yaml_error_type_t::YAML_MEMORY_ERROR => "memory",
        yaml_error_type_t::YAML_READER_ERROR => "reader",
        yaml_error_type_t::YAML_SCANNER_ERROR => "scanner",
        yaml_error_type_t::YAML_PARSER_ERROR => "parser",
        yaml_error_type_t::YAML_COMPOSER_ERROR => "composer",
        yaml_error_type_t::YAML_WRITER_ERROR => "writer",
        yaml_error_type_t::YAML_EMITTER_ERROR => "emitter",
    }
}
