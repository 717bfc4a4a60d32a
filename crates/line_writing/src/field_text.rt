//! The fields of a line as they are written, each after a space.
ghost use Rattle.std.specs.Prelude.{◌≡◌, ◌++◌, [], ◌∷◌, OnOk, string_bytes, decimal, option_map};
ghost use Rattle.line_writing.specs.FieldTexts.{after_spaces, optional_version_text, flag_text};
ghost use Rattle.line_writing.specs.FieldTexts.{string_text, optional_string_text, directive_fields};
ghost use Rattle.line_writing.specs.FieldTexts.{encoding_text, scalar_style_text};
ghost use Rattle.line_writing.specs.FieldTexts.{sequence_style_text, mapping_style_text, line_rest};

use crate::escape::append_escaped;
use itoa::Buffer;
use libyaml_types::{
    yaml_encoding_t, yaml_mapping_style_t, yaml_scalar_style_t, yaml_sequence_style_t,
    yaml_tag_directive_t, yaml_version_directive_t,
};
use std::alloc::AllocError;

/// What is written for a field that is absent.
pub(crate) const ABSENT: &str = "-";

/// Appends a field that needs no escapes.
pub(crate) fn append_field(line: &mut String, field: &str) -> Result<(), AllocError>
    ensures { OnOk result (string_bytes line.new ≡ string_bytes line.old ++ after_spaces (field.now ∷ [])) }
{
    line.push_str(" ")?;
    line.push_str(field)
}

#[inline(always)]
pub(crate) fn append_number(line: &mut String, number: usize) -> Result<(), AllocError>
    ensures { OnOk result (string_bytes line.new ≡ string_bytes line.old
        ++ after_spaces (decimal number ∷ [])) }
{
    append_field(line, Buffer::new().format(number))
}

pub(crate) fn append_version(
    line: &mut String,
    version: Option<yaml_version_directive_t>,
) -> Result<(), AllocError>
    ensures { OnOk result (string_bytes line.new ≡ string_bytes line.old
        ++ after_spaces (optional_version_text version ∷ [])) }
{
    let Some(version) = version else {
        return append_field(line, ABSENT);
    };
    let mut digits = Buffer::new();
    append_field(line, digits.format(version.major))?;
    line.push_str(".")?;
    line.push_str(digits.format(version.minor))
}

pub(crate) fn append_flag(line: &mut String, flag: bool) -> Result<(), AllocError>
    ensures { OnOk result (string_bytes line.new ≡ string_bytes line.old
        ++ after_spaces (flag_text flag ∷ [])) }
{
    line.push_str(if flag { " 1" } else { " 0" })
}

/// Appends two flags with one `push_str`.
pub(crate) fn append_two_flags(
    line: &mut String,
    first: bool,
    second: bool,
) -> Result<(), AllocError>
    ensures { OnOk result (string_bytes line.new ≡ string_bytes line.old
        ++ after_spaces (flag_text first ∷ flag_text second ∷ [])) }
{
    line.push_str(match (first, second) {
        (false, false) => " 0 0",
        (false, true) => " 0 1",
        (true, false) => " 1 0",
        (true, true) => " 1 1",
    })
}

pub(crate) fn append_string(line: &mut String, text: &str) -> Result<(), AllocError>
    ensures { OnOk result (string_bytes line.new ≡ string_bytes line.old
        ++ after_spaces (string_text text.now ∷ [])) }
{
    line.push_str(" =")?;
    append_escaped(line, text)
}

pub(crate) fn append_optional_string(
    line: &mut String,
    text: &Option<String>,
) -> Result<(), AllocError>
    ensures { OnOk result (string_bytes line.new ≡ string_bytes line.old
        ++ after_spaces (optional_string_text (option_map string_bytes text.now) ∷ [])) }
{
    match text {
        Some(text) => append_string(line, text),
        None => line.push_str(" -"),
    }
}

/// Appends the anchor and the tag of a node. Most nodes have neither.
pub(crate) fn append_properties(
    line: &mut String,
    anchor: &Option<String>,
    tag: &Option<String>,
) -> Result<(), AllocError>
    ensures { OnOk result (string_bytes line.new ≡ string_bytes line.old
        ++ after_spaces (optional_string_text (option_map string_bytes anchor.now)
        ∷ optional_string_text (option_map string_bytes tag.now) ∷ [])) }
{
    if anchor.is_none() && tag.is_none() {
        return line.push_str(" - -");
    }
    append_optional_string(line, anchor)?;
    append_optional_string(line, tag)
}

/// Appends the anchor, the tag and the text of a scalar; what most have before the text with one `push_str`.
pub(crate) fn append_node_text(
    line: &mut String,
    anchor: &Option<String>,
    tag: &Option<String>,
    text: &str,
) -> Result<(), AllocError>
    ensures { OnOk result (string_bytes line.new ≡ string_bytes line.old
        ++ after_spaces (optional_string_text (option_map string_bytes anchor.now)
        ∷ optional_string_text (option_map string_bytes tag.now) ∷ string_text text.now ∷ [])) }
{
    match (anchor, tag) {
        (None, None) => {
            line.push_str(" - - =")?;
            append_escaped(line, text)
        }
        _ => {
            append_properties(line, anchor, tag)?;
            append_string(line, text)
        }
    }
}

/// Appends the handle and the prefix of each directive.
pub(crate) fn append_directives(
    line: &mut String,
    directives: &[yaml_tag_directive_t],
) -> Result<(), AllocError>
    ensures { OnOk result (string_bytes line.new ≡ string_bytes line.old
        ++ after_spaces (directive_fields directives.now)) }
{
    for directive in directives {
        append_string(line, &directive.handle)?;
        append_string(line, &directive.prefix)?;
    }
    Ok(())
}

pub(crate) fn append_encoding(
    line: &mut String,
    encoding: yaml_encoding_t,
) -> Result<(), AllocError>
    ensures { OnOk result (string_bytes line.new ≡ string_bytes line.old
        ++ after_spaces (encoding_text encoding ∷ [])) }
{
    match encoding {
        yaml_encoding_t::YAML_ANY_ENCODING => line.push_str(" any"),
        yaml_encoding_t::YAML_UTF8_ENCODING => line.push_str(" utf8"),
        yaml_encoding_t::YAML_UTF16LE_ENCODING => line.push_str(" utf16le"),
        yaml_encoding_t::YAML_UTF16BE_ENCODING => line.push_str(" utf16be"),
    }
}

/// Appends the last field of a scalar's line, and the line feed with it.
pub(crate) fn append_scalar_end(
    line: &mut String,
    style: yaml_scalar_style_t,
) -> Result<(), AllocError>
    ensures { OnOk result (string_bytes line.new ≡ string_bytes line.old
        ++ line_rest (scalar_style_text style ∷ [])) }
{
    match style {
        yaml_scalar_style_t::YAML_ANY_SCALAR_STYLE => line.push_str(" any\n"),
        yaml_scalar_style_t::YAML_PLAIN_SCALAR_STYLE => line.push_str(" plain\n"),
        yaml_scalar_style_t::YAML_SINGLE_QUOTED_SCALAR_STYLE => line.push_str(" single\n"),
        yaml_scalar_style_t::YAML_DOUBLE_QUOTED_SCALAR_STYLE => line.push_str(" double\n"),
        yaml_scalar_style_t::YAML_LITERAL_SCALAR_STYLE => line.push_str(" literal\n"),
        yaml_scalar_style_t::YAML_FOLDED_SCALAR_STYLE => line.push_str(" folded\n"),
    }
}

/// Appends the flags and the style of a scalar, and the line feed: those of most with one `push_str`.
pub(crate) fn append_flags_and_style(
    line: &mut String,
    plain_implicit: bool,
    quoted_implicit: bool,
    style: yaml_scalar_style_t,
) -> Result<(), AllocError>
    ensures { OnOk result (string_bytes line.new ≡ string_bytes line.old
        ++ line_rest (flag_text plain_implicit ∷ flag_text quoted_implicit
        ∷ scalar_style_text style ∷ [])) }
{
    match (plain_implicit, quoted_implicit, style) {
        (true, false, yaml_scalar_style_t::YAML_PLAIN_SCALAR_STYLE) => {
            line.push_str(" 1 0 plain\n")
        }
        _ => {
            append_two_flags(line, plain_implicit, quoted_implicit)?;
            append_scalar_end(line, style)
        }
    }
}

pub(crate) fn append_sequence_style(
    line: &mut String,
    style: yaml_sequence_style_t,
) -> Result<(), AllocError>
    ensures { OnOk result (string_bytes line.new ≡ string_bytes line.old
        ++ after_spaces (sequence_style_text style ∷ [])) }
{
    match style {
        yaml_sequence_style_t::YAML_ANY_SEQUENCE_STYLE => line.push_str(" any"),
        yaml_sequence_style_t::YAML_BLOCK_SEQUENCE_STYLE => line.push_str(" block"),
        yaml_sequence_style_t::YAML_FLOW_SEQUENCE_STYLE => line.push_str(" flow"),
    }
}

pub(crate) fn append_mapping_style(
    line: &mut String,
    style: yaml_mapping_style_t,
) -> Result<(), AllocError>
    ensures { OnOk result (string_bytes line.new ≡ string_bytes line.old
        ++ after_spaces (mapping_style_text style ∷ [])) }
{
    match style {
        yaml_mapping_style_t::YAML_ANY_MAPPING_STYLE => line.push_str(" any"),
        yaml_mapping_style_t::YAML_BLOCK_MAPPING_STYLE => line.push_str(" block"),
        yaml_mapping_style_t::YAML_FLOW_MAPPING_STYLE => line.push_str(" flow"),
    }
}
