//! Events as lines.
ghost use Rattle.std.specs.Prelude.{◌≡◌, ◌++◌, OnOk, Err, IsOkUnless, string_bytes};
ghost use Rattle.std.specs.Io.KnownBytes.{Appends};
ghost use Rattle.line_writing.specs.EventText.{event_name, event_fields, event_line};
ghost use Rattle.line_writing.specs.FieldTexts.{after_spaces, line_rest};

use crate::field_text::{
    append_directives, append_encoding, append_flag, append_flags_and_style, append_mapping_style,
    append_node_text, append_number, append_properties, append_sequence_style, append_string,
    append_version,
};
use crate::marks::append_marks;
use crate::refusal::line_refusal_t;
use libyaml_types::{
    unnamed_yaml_event_t_data, unnamed_yaml_event_t_data_document_start,
    unnamed_yaml_event_t_data_mapping_start, unnamed_yaml_event_t_data_scalar,
    unnamed_yaml_event_t_data_sequence_start, yaml_event_t,
};
use std::alloc::{AllocError, Global};
use std::io::Write;

/// Writes the event's line.
///
/// # Errors
///
/// The text is made first, so after `Memory` nothing of it was written; after `Output` nothing is said
/// of the writer.
pub fn write_event<W: Write>(
    alloc: Global,
    event: &yaml_event_t,
    writer: &mut W,
) -> Result<(), line_refusal_t>
    ensures ok { OnOk result (Appends (W.contents writer.old) (W.contents writer.new)
        (event_line event.now)) }
    ensures memory { result ≡ Err line_refusal_t.Memory → writer.new ≡ writer.old }
{
    let mut line = String::new(alloc);
    append_event(&mut line, event)?;
    write_line(&line, writer)
}

/// Writes a line whose text is made.
///
/// # Errors
///
/// The write failed.
pub fn write_line<W: Write>(line: &String, writer: &mut W) -> Result<(), line_refusal_t>
    ensures ok { OnOk result (Appends (W.contents writer.old) (W.contents writer.new)
        (string_bytes line.now)) }
    ensures output { IsOkUnless result line_refusal_t.Output }
{
    match writer.write_all(line.as_bytes()) {
        Ok(()) => Ok(()),
        Err(_) => Err(line_refusal_t::Output),
    }
}

/// Appends the event's line.
///
/// # Errors
///
/// An allocation failed; `line` then holds some prefix of the event's line after what it held.
#[inline(never)]
pub fn append_event(line: &mut String, event: &yaml_event_t) -> Result<(), AllocError>
    ensures { OnOk result (string_bytes line.new ≡ string_bytes line.old ++ event_line event.now) }
{
    append_name(line, &event.content)?;
    append_marks(line, &event.start_mark, &event.end_mark)?;
    append_rest(line, &event.content)
}

fn append_name(line: &mut String, content: &unnamed_yaml_event_t_data) -> Result<(), AllocError>
    ensures { OnOk result (string_bytes line.new ≡ string_bytes line.old ++ event_name content.now) }
{
    match content {
        unnamed_yaml_event_t_data::NoEvent => line.push_str("NO-EVENT"),
        unnamed_yaml_event_t_data::StreamStart(_) => line.push_str("STREAM-START"),
        unnamed_yaml_event_t_data::StreamEnd => line.push_str("STREAM-END"),
        unnamed_yaml_event_t_data::DocumentStart(_) => line.push_str("DOCUMENT-START"),
        unnamed_yaml_event_t_data::DocumentEnd(_) => line.push_str("DOCUMENT-END"),
        unnamed_yaml_event_t_data::Alias(_) => line.push_str("ALIAS"),
        unnamed_yaml_event_t_data::Scalar(_) => line.push_str("SCALAR"),
        unnamed_yaml_event_t_data::SequenceStart(_) => line.push_str("SEQUENCE-START"),
        unnamed_yaml_event_t_data::SequenceEnd => line.push_str("SEQUENCE-END"),
        unnamed_yaml_event_t_data::MappingStart(_) => line.push_str("MAPPING-START"),
        unnamed_yaml_event_t_data::MappingEnd => line.push_str("MAPPING-END"),
    }
}

/// Appends the fields that follow the marks, and the line feed.
fn append_rest(line: &mut String, content: &unnamed_yaml_event_t_data) -> Result<(), AllocError>
    ensures { OnOk result (string_bytes line.new ≡ string_bytes line.old
        ++ line_rest (event_fields content.now)) }
{
    match content {
        unnamed_yaml_event_t_data::StreamStart(start) => append_encoding(line, start.encoding)?,
        unnamed_yaml_event_t_data::DocumentStart(start) => append_document_start(line, start)?,
        unnamed_yaml_event_t_data::DocumentEnd(end) => append_flag(line, end.implicit)?,
        unnamed_yaml_event_t_data::Alias(alias) => append_string(line, &alias.anchor)?,
        unnamed_yaml_event_t_data::Scalar(scalar) => return append_scalar(line, scalar),
        unnamed_yaml_event_t_data::SequenceStart(start) => append_sequence_start(line, start)?,
        unnamed_yaml_event_t_data::MappingStart(start) => append_mapping_start(line, start)?,
        unnamed_yaml_event_t_data::NoEvent
        | unnamed_yaml_event_t_data::StreamEnd
        | unnamed_yaml_event_t_data::SequenceEnd
        | unnamed_yaml_event_t_data::MappingEnd => {}
    }
    line.push_str("\n")
}

fn append_document_start(
    line: &mut String,
    start: &unnamed_yaml_event_t_data_document_start,
) -> Result<(), AllocError>
    ensures { OnOk result (string_bytes line.new ≡ string_bytes line.old
        ++ after_spaces (event_fields (unnamed_yaml_event_t_data.DocumentStart start.now))) }
{
    let directives = start.tag_directives.as_slice();
    append_flag(line, start.implicit)?;
    append_version(line, start.version_directive)?;
    append_number(line, directives.len())?;
    append_directives(line, directives)
}

fn append_scalar(
    line: &mut String,
    scalar: &unnamed_yaml_event_t_data_scalar,
) -> Result<(), AllocError>
    ensures { OnOk result (string_bytes line.new ≡ string_bytes line.old
        ++ line_rest (event_fields (unnamed_yaml_event_t_data.Scalar scalar.now))) }
{
    append_node_text(line, &scalar.anchor, &scalar.tag, &scalar.value)?;
    append_flags_and_style(
        line,
        scalar.plain_implicit,
        scalar.quoted_implicit,
        scalar.style,
    )
}

fn append_sequence_start(
    line: &mut String,
    start: &unnamed_yaml_event_t_data_sequence_start,
) -> Result<(), AllocError>
    ensures { OnOk result (string_bytes line.new ≡ string_bytes line.old
        ++ after_spaces (event_fields (unnamed_yaml_event_t_data.SequenceStart start.now))) }
{
    append_properties(line, &start.anchor, &start.tag)?;
    append_flag(line, start.implicit)?;
    append_sequence_style(line, start.style)
}

fn append_mapping_start(
    line: &mut String,
    start: &unnamed_yaml_event_t_data_mapping_start,
) -> Result<(), AllocError>
    ensures { OnOk result (string_bytes line.new ≡ string_bytes line.old
        ++ after_spaces (event_fields (unnamed_yaml_event_t_data.MappingStart start.now))) }
{
    append_properties(line, &start.anchor, &start.tag)?;
    append_flag(line, start.implicit)?;
    append_mapping_style(line, start.style)
}
