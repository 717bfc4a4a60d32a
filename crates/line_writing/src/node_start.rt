//! The start of a node's line: its id, its name and its marks, gathered from the last byte to the first.
ghost use Rattle.std.specs.Prelude.{◌≡◌, ◌≤◌, ◌+◌, ◌++◌, [], ◌∷◌, length, drop, OnOk};
ghost use Rattle.std.specs.Prelude.{string_bytes, decimal};
ghost use Rattle.line_writing.specs.DocumentText.{node_name};
ghost use Rattle.line_writing.specs.FieldTexts.{after_spaces, mark_text};

use crate::marks::{TWO_MARKS, write_mark};
use itoa::write_digits;
use libyaml_documents::{unnamed_yaml_node_t_data, yaml_node_t};
use percent_encoding::ascii_str;
use std::alloc::AllocError;

/// An id takes at most 20 bytes, and a name with its space 9.
const START: usize = 29 + TWO_MARKS;

/// Appends the id, the name and the marks of a node.
pub(crate) fn append_node_start(
    line: &mut String,
    id: usize,
    node: &yaml_node_t,
) -> Result<(), AllocError>
    ensures { OnOk result (string_bytes line.new ≡ string_bytes line.old ++ (decimal id
        ++ after_spaces (node_name node.now.content ∷ mark_text node.now.start_mark
        ∷ mark_text node.now.end_mark ∷ []))) }
{
    let mut text = [0; START];
    let from = write_mark(&node.end_mark, &mut text, START);
    let from = write_mark(&node.start_mark, &mut text, from);
    let from = write_name(&node.content, &mut text, from);
    let from = write_digits(id as u64, &mut text, from);
    line.push_str(ascii_str(&text[from..]))
}

/// Writes a space and the name of a node before `end`, and returns where they start.
fn write_name(content: &unnamed_yaml_node_t_data, text: &mut [u8], end: usize) -> usize
    requires { (9 ≤ end) × (end ≤ length text.old) }
    ensures start { (result ≤ end) × (end ≤ result + 9) }
    ensures written { drop result text.new ≡ after_spaces (node_name content.now ∷ [])
        ++ drop end text.old }
{
    match content {
        unnamed_yaml_node_t_data::Scalar(_) => write_bytes(b" SCALAR", text, end),
        unnamed_yaml_node_t_data::Sequence(_) => write_bytes(b" SEQUENCE", text, end),
        unnamed_yaml_node_t_data::Mapping(_) => write_bytes(b" MAPPING", text, end),
    }
}

/// Writes the bytes before `end`, and returns where they start.
#[inline(always)]
fn write_bytes(bytes: &[u8], text: &mut [u8], end: usize) -> usize
    requires { (length bytes.now ≤ end) × (end ≤ length text.old) }
    ensures start { result + length bytes.now ≡ end }
    ensures written { drop result text.new ≡ bytes.now ++ drop end text.old }
{
    let start = end - bytes.len();
    text[start..end].copy_from_slice(bytes);
    start
}
