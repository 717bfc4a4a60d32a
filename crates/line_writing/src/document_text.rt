//! Documents as lines.
ghost use Rattle.std.specs.Prelude.{◌≡◌, ◌++◌, [], ◌∷◌, OnOk, Err, map, string_bytes};
ghost use Rattle.std.specs.List.{concat};
ghost use Rattle.std.specs.Fmt.{signed_decimal};
ghost use Rattle.std.specs.Io.KnownBytes.{Appends};
ghost use Rattle.line_writing.specs.DocumentText.{WroteBefore, document_fields, document_line};
ghost use Rattle.line_writing.specs.DocumentText.{document_lines, node_fields, node_line};
ghost use Rattle.line_writing.specs.DocumentText.{node_lines, pair_text};
ghost use Rattle.line_writing.specs.FieldTexts.{after_spaces, line_rest, string_text};

use crate::event_line::write_line;
use crate::field_text::{
    append_directives, append_field, append_mapping_style, append_number, append_scalar_end,
    append_sequence_style, append_string, append_two_flags, append_version,
};
use crate::marks::append_marks;
use crate::node_start::append_node_start;
use crate::refusal::line_refusal_t;
use itoa::Buffer;
use libyaml_documents::{
    unnamed_yaml_node_t_data, unnamed_yaml_node_t_data_mapping, unnamed_yaml_node_t_data_scalar,
    unnamed_yaml_node_t_data_sequence, yaml_document_t, yaml_node_item_t, yaml_node_pair_t,
    yaml_node_t,
};
use std::alloc::{AllocError, Global};
use std::io::Write;

/// The capacity that a text of lines begins with: most lines take fewer bytes.
const LINE: usize = 128;

/// Writes the document's text: its line, and a line for each node in the order of their ids, which
/// count from 1.
///
/// # Errors
///
/// The text of each line is made before a byte of it is written. So after `Memory` the lines before
/// one of them were written, and nothing of that one; after `Output` nothing is said of the writer.
pub fn write_document<W: Write>(
    alloc: Global,
    document: &yaml_document_t,
    writer: &mut W,
) -> Result<(), line_refusal_t>
    ensures ok { OnOk result (Appends (W.contents writer.old) (W.contents writer.new)
        (concat (document_lines document.now))) }
    ensures memory { result ≡ Err line_refusal_t.Memory
        → WroteBefore (W.contents writer.old) (W.contents writer.new) (document_lines document.now) }
{
    let mut line = String::with_capacity(alloc, LINE)?;
    append_document(&mut line, document)?;
    write_line(&line, writer)?;
    write_nodes(&mut line, document.nodes(), writer)
}

/// Writes the line of each node, whose text is made in `line`.
fn write_nodes<W: Write>(
    line: &mut String,
    nodes: &[yaml_node_t],
    writer: &mut W,
) -> Result<(), line_refusal_t>
    ensures ok { OnOk result (Appends (W.contents writer.old) (W.contents writer.new)
        (concat (node_lines 1 nodes.now))) }
    ensures memory { result ≡ Err line_refusal_t.Memory
        → WroteBefore (W.contents writer.old) (W.contents writer.new) (node_lines 1 nodes.now) }
{
    for (index, node) in nodes.iter().enumerate() {
        line.clear();
        append_node(line, index + 1, node)?;
        write_line(line, writer)?;
    }
    Ok(())
}

/// Appends the document's own line.
fn append_document(line: &mut String, document: &yaml_document_t) -> Result<(), AllocError>
    ensures { OnOk result (string_bytes line.new ≡ string_bytes line.old ++ document_line document.now) }
{
    line.push_str("DOCUMENT")?;
    append_marks(line, &document.start_mark(), &document.end_mark())?;
    append_document_rest(line, document)
}

/// Appends the fields of a document that follow its marks, and the line feed.
fn append_document_rest(line: &mut String, document: &yaml_document_t) -> Result<(), AllocError>
    ensures { OnOk result (string_bytes line.new ≡ string_bytes line.old
        ++ line_rest (document_fields document.now)) }
{
    let directives = document.tag_directives();
    append_two_flags(line, document.start_implicit(), document.end_implicit())?;
    append_version(line, document.version_directive())?;
    append_number(line, directives.len())?;
    append_directives(line, directives)?;
    line.push_str("\n")
}

/// Appends the line of the node of this id.
fn append_node(line: &mut String, id: usize, node: &yaml_node_t) -> Result<(), AllocError>
    ensures { OnOk result (string_bytes line.new ≡ string_bytes line.old ++ node_line id node.now) }
{
    append_node_start(line, id, node)?;
    append_tag(line, node)?;
    append_node_rest(line, &node.content)
}

/// Appends the tag, the default of the node's kind with one `push_str`.
fn append_tag(line: &mut String, node: &yaml_node_t) -> Result<(), AllocError>
    ensures { OnOk result (string_bytes line.new ≡ string_bytes line.old
        ++ after_spaces (string_text node.now.tag ∷ [])) }
{
    let tag = node.tag.as_str();
    match node.content {
        unnamed_yaml_node_t_data::Scalar(_) if tag == "tag:yaml.org,2002:str" => {
            line.push_str(" =tag:yaml.org,2002:str")
        }
        unnamed_yaml_node_t_data::Sequence(_) if tag == "tag:yaml.org,2002:seq" => {
            line.push_str(" =tag:yaml.org,2002:seq")
        }
        unnamed_yaml_node_t_data::Mapping(_) if tag == "tag:yaml.org,2002:map" => {
            line.push_str(" =tag:yaml.org,2002:map")
        }
        _ => append_string(line, &node.tag),
    }
}

/// Appends the fields of a node that follow its tag, and the line feed.
fn append_node_rest(line: &mut String, content: &unnamed_yaml_node_t_data) -> Result<(), AllocError>
    ensures { OnOk result (string_bytes line.new ≡ string_bytes line.old
        ++ line_rest (node_fields content.now)) }
{
    match content {
        unnamed_yaml_node_t_data::Scalar(scalar) => return append_scalar_node(line, scalar),
        unnamed_yaml_node_t_data::Sequence(sequence) => append_sequence_node(line, sequence)?,
        unnamed_yaml_node_t_data::Mapping(mapping) => append_mapping_node(line, mapping)?,
    }
    line.push_str("\n")
}

fn append_scalar_node(
    line: &mut String,
    scalar: &unnamed_yaml_node_t_data_scalar,
) -> Result<(), AllocError>
    ensures { OnOk result (string_bytes line.new ≡ string_bytes line.old
        ++ line_rest (node_fields (unnamed_yaml_node_t_data.Scalar scalar.now))) }
{
    append_string(line, &scalar.value)?;
    append_scalar_end(line, scalar.style)
}

fn append_sequence_node(
    line: &mut String,
    sequence: &unnamed_yaml_node_t_data_sequence,
) -> Result<(), AllocError>
    ensures { OnOk result (string_bytes line.new ≡ string_bytes line.old
        ++ after_spaces (node_fields (unnamed_yaml_node_t_data.Sequence sequence.now))) }
{
    append_sequence_style(line, sequence.style)?;
    append_number(line, sequence.items.len())?;
    append_items(line, sequence.items.as_slice())
}

fn append_mapping_node(
    line: &mut String,
    mapping: &unnamed_yaml_node_t_data_mapping,
) -> Result<(), AllocError>
    ensures { OnOk result (string_bytes line.new ≡ string_bytes line.old
        ++ after_spaces (node_fields (unnamed_yaml_node_t_data.Mapping mapping.now))) }
{
    append_mapping_style(line, mapping.style)?;
    append_number(line, mapping.pairs.len())?;
    append_pairs(line, mapping.pairs.as_slice())
}

/// Appends the id of each item.
fn append_items(line: &mut String, items: &[yaml_node_item_t]) -> Result<(), AllocError>
    ensures { OnOk result (string_bytes line.new ≡ string_bytes line.old
        ++ after_spaces (map signed_decimal items.now)) }
{
    for item in items {
        append_id(line, *item)?;
    }
    Ok(())
}

/// Appends the ids of each key and its value.
fn append_pairs(line: &mut String, pairs: &[yaml_node_pair_t]) -> Result<(), AllocError>
    ensures { OnOk result (string_bytes line.new ≡ string_bytes line.old
        ++ after_spaces (map pair_text pairs.now)) }
{
    for pair in pairs {
        append_pair(line, pair)?;
    }
    Ok(())
}

#[inline(always)]
fn append_id(line: &mut String, id: yaml_node_item_t) -> Result<(), AllocError>
    ensures { OnOk result (string_bytes line.new ≡ string_bytes line.old
        ++ after_spaces (signed_decimal id ∷ [])) }
{
    append_field(line, Buffer::new().format(id))
}

fn append_pair(line: &mut String, pair: &yaml_node_pair_t) -> Result<(), AllocError>
    ensures { OnOk result (string_bytes line.new ≡ string_bytes line.old
        ++ after_spaces (pair_text pair.now ∷ [])) }
{
    append_id(line, pair.key)?;
    line.push_str(":")?;
    line.push_str(Buffer::new().format(pair.value))
}
