//! Token lines.
ghost use Rattle.std.specs.Prelude.{◌≡◌, ◌≤◌, [], ◌∷◌, All, IfSome, codes, drop, length, option_copied};
ghost use Rattle.libyaml_types.specs.declared.enums.yaml_token_type_t.TheVariants.{YAML_SCALAR_TOKEN};
ghost use Rattle.line_reading.specs.Clean.{IsClean};
ghost use Rattle.line_reading.specs.tokens.Pieces.{pieces_of};
ghost use Rattle.line_reading.specs.tokens.ReadAt.{further};
ghost use Rattle.line_reading.specs.tokens.TokenLine.{bare_content, content_of_one, content_of_two};
ghost use Rattle.line_reading.specs.tokens.TokenLine.{content_of, token_of_line};
ghost use Rattle.line_reading.specs.tokens.Reading.{IsReadInto};

use crate::field::{read_encoding, read_scalar_style, read_text, read_version};
use crate::line_problem::LineProblem;
use crate::marks::read_mark;
use crate::pieces::Pieces;
use crate::token_name::{NameRead, read_name};
use libyaml_types::{
    unnamed_yaml_token_t_data, unnamed_yaml_token_t_data_alias, unnamed_yaml_token_t_data_anchor,
    unnamed_yaml_token_t_data_scalar, unnamed_yaml_token_t_data_stream_start,
    unnamed_yaml_token_t_data_tag, unnamed_yaml_token_t_data_tag_directive, yaml_token_t,
    yaml_token_type_t,
};
use std::alloc::Global;

/// Reads the token of a line, which has no LF, into `token`. Only the token's texts take memory.
///
/// # Errors
///
/// `BadTokenLine` if the line is no token line, and `Memory` if an allocation fails. Then the value of
/// `token` is unspecified.
pub(crate) fn read_token_line(
    alloc: Global,
    line: &[u8],
    token: &mut yaml_token_t,
) -> Result<(), LineProblem>
    ensures { IsReadInto result token.new (token_of_line line.now) }
{
    let Some(NameRead { type_, end: name }) = read_name(line) else {
        return Err(LineProblem::BadTokenLine);
    };
    let start = read_mark(line, name + 1, &mut token.start_mark);
    if start == 0 || start == line.len() {
        return Err(LineProblem::BadTokenLine);
    }
    let end = read_mark(line, start + 1, &mut token.end_mark);
    if end == 0 {
        return Err(LineProblem::BadTokenLine);
    }
    let fields = Pieces::behind(fields_after(line, end), b' ');
    read_pieces(alloc, type_, fields, &mut token.content)
}

/// Returns the further fields after one that ends at an index, if there are some.
#[inline(always)]
fn fields_after(line: &[u8], end: usize) -> Option<&[u8]>
    requires { end ≤ length line.now }
    ensures { option_copied result ≡ further (drop end line.now) }
{
    if end == line.len() {
        return None;
    }
    Some(&line[end + 1..])
}

/// Reads the content of a token of this type, from the further fields that are its pieces.
#[inline(always)]
pub(crate) fn read_pieces(
    alloc: Global,
    type_: yaml_token_type_t,
    mut fields: Pieces,
    content: &mut unnamed_yaml_token_t_data,
) -> Result<(), LineProblem>
    ensures { IsReadInto result content.new (content_of type_ fields.entry) }
{
    let Some(first) = fields.next() else {
        return read_bare_content(type_, content);
    };
    let Some(second) = fields.next() else {
        return read_content_of_one(alloc, type_, first, content);
    };
    if fields.next().is_some() {
        return Err(LineProblem::BadTokenLine);
    }
    read_content_of_two(alloc, type_, first, second, content)
}

/// Reads the content of a token that has no further field.
#[inline(always)]
pub(crate) fn read_bare_content(
    type_: yaml_token_type_t,
    content: &mut unnamed_yaml_token_t_data,
) -> Result<(), LineProblem>
    ensures { IsReadInto result content.new (bare_content type_) }
{
    *content = match type_ {
        yaml_token_type_t::YAML_NO_TOKEN => unnamed_yaml_token_t_data::NoToken,
        yaml_token_type_t::YAML_STREAM_END_TOKEN => unnamed_yaml_token_t_data::StreamEnd,
        yaml_token_type_t::YAML_DOCUMENT_START_TOKEN => unnamed_yaml_token_t_data::DocumentStart,
        yaml_token_type_t::YAML_DOCUMENT_END_TOKEN => unnamed_yaml_token_t_data::DocumentEnd,
        yaml_token_type_t::YAML_BLOCK_SEQUENCE_START_TOKEN =>
            unnamed_yaml_token_t_data::BlockSequenceStart,
        yaml_token_type_t::YAML_BLOCK_MAPPING_START_TOKEN =>
            unnamed_yaml_token_t_data::BlockMappingStart,
        yaml_token_type_t::YAML_BLOCK_END_TOKEN => unnamed_yaml_token_t_data::BlockEnd,
        yaml_token_type_t::YAML_FLOW_SEQUENCE_START_TOKEN =>
            unnamed_yaml_token_t_data::FlowSequenceStart,
        yaml_token_type_t::YAML_FLOW_SEQUENCE_END_TOKEN =>
            unnamed_yaml_token_t_data::FlowSequenceEnd,
        yaml_token_type_t::YAML_FLOW_MAPPING_START_TOKEN =>
            unnamed_yaml_token_t_data::FlowMappingStart,
        yaml_token_type_t::YAML_FLOW_MAPPING_END_TOKEN => unnamed_yaml_token_t_data::FlowMappingEnd,
        yaml_token_type_t::YAML_BLOCK_ENTRY_TOKEN => unnamed_yaml_token_t_data::BlockEntry,
        yaml_token_type_t::YAML_FLOW_ENTRY_TOKEN => unnamed_yaml_token_t_data::FlowEntry,
        yaml_token_type_t::YAML_KEY_TOKEN => unnamed_yaml_token_t_data::Key,
        yaml_token_type_t::YAML_VALUE_TOKEN => unnamed_yaml_token_t_data::Value,
        _ => return Err(LineProblem::BadTokenLine),
    };
    Ok(())
}

/// Reads the content of a token that has one further field.
fn read_content_of_one(
    alloc: Global,
    type_: yaml_token_type_t,
    field: &[u8],
    content: &mut unnamed_yaml_token_t_data,
) -> Result<(), LineProblem>
    ensures { IsReadInto result content.new (content_of_one type_ field.now) }
{
    *content = match type_ {
        yaml_token_type_t::YAML_STREAM_START_TOKEN => {
            let encoding = read_encoding(field).ok_or(LineProblem::BadTokenLine)?;
            unnamed_yaml_token_t_data::StreamStart(unnamed_yaml_token_t_data_stream_start {
                encoding,
            })
        }
        yaml_token_type_t::YAML_VERSION_DIRECTIVE_TOKEN => {
            let version = read_version(field).ok_or(LineProblem::BadTokenLine)?;
            unnamed_yaml_token_t_data::VersionDirective(version)
        }
        yaml_token_type_t::YAML_ALIAS_TOKEN => {
            let value = read_text(alloc, field)?;
            unnamed_yaml_token_t_data::Alias(unnamed_yaml_token_t_data_alias { value })
        }
        yaml_token_type_t::YAML_ANCHOR_TOKEN => {
            let value = read_text(alloc, field)?;
            unnamed_yaml_token_t_data::Anchor(unnamed_yaml_token_t_data_anchor { value })
        }
        _ => return Err(LineProblem::BadTokenLine),
    };
    Ok(())
}

/// Reads the content of a token that has two further fields.
#[inline(always)]
fn read_content_of_two(
    alloc: Global,
    type_: yaml_token_type_t,
    first: &[u8],
    second: &[u8],
    content: &mut unnamed_yaml_token_t_data,
) -> Result<(), LineProblem>
    ensures { IsReadInto result content.new (content_of_two type_ first.now second.now) }
{
    *content = match type_ {
        yaml_token_type_t::YAML_TAG_DIRECTIVE_TOKEN => {
            let handle = read_text(alloc, first)?;
            let prefix = read_text(alloc, second)?;
            let directive = unnamed_yaml_token_t_data_tag_directive { handle, prefix };
            unnamed_yaml_token_t_data::TagDirective(directive)
        }
        yaml_token_type_t::YAML_TAG_TOKEN => {
            let handle = read_text(alloc, first)?;
            let suffix = read_text(alloc, second)?;
            unnamed_yaml_token_t_data::Tag(unnamed_yaml_token_t_data_tag { handle, suffix })
        }
        yaml_token_type_t::YAML_SCALAR_TOKEN => {
            let value = read_text(alloc, first)?;
            let style = read_scalar_style(second).ok_or(LineProblem::BadTokenLine)?;
            unnamed_yaml_token_t_data::Scalar(unnamed_yaml_token_t_data_scalar { value, style })
        }
        _ => return Err(LineProblem::BadTokenLine),
    };
    Ok(())
}
