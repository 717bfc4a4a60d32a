//! Token lines that are read where they lie in a reader's buffer, from the left: no line end is looked for
//! first.
//! What a function leaves to `token_line.rt` it returns as the index 0.
ghost use Rattle.std.specs.Prelude.{◌≡◌, ◌+◌, ◌<◌, ◌≤◌, ◌++◌, ◌∷◌, All, IfOk, IfErr, IfSome};
ghost use Rattle.std.specs.Prelude.{codes, length, take};
ghost use Rattle.line_reading.specs.Clean.{IsClean};
ghost use Rattle.line_reading.specs.tokens.Buffered.{IsBufferedLine, IsBufferedContent};
ghost use Rattle.line_reading.specs.tokens.Reading.{IsReadInto};
ghost use Rattle.line_reading.specs.tokens.TokenLine.{content_of_two};
ghost use Rattle.libyaml_types.specs.declared.enums.yaml_token_type_t.TheVariants.{YAML_SCALAR_TOKEN};

mod digits;
mod marks;
mod names;

use crate::bytes::{begins_with, clean_end};
use crate::line_problem::LineProblem;
use crate::pieces::Pieces;
use crate::search::len_before;
use crate::token_line::{read_bare_content, read_pieces};
use crate::token_name::NameRead;
use libyaml_types::{
    unnamed_yaml_token_t_data, unnamed_yaml_token_t_data_scalar, yaml_scalar_style_t, yaml_token_t,
    yaml_token_type_t,
};
use marks::{NO_ROW, read_buffered_mark};
use names::read_buffered_name;
use percent_encoding::ascii_str;
use std::alloc::Global;

/// The name and the marks of a line are read only within so many bytes, of which they take fewer.
const ROOM: usize = 72;

/// Reads the token of the line that begins the bytes into `token`, and returns the line's length. Returns 0
/// if the line does not lie whole in the bytes, with its LF, if it is no token line, or if it is none of those
/// that are read here: then the value of `token` is unspecified.
///
/// # Errors
///
/// `Memory` if an allocation fails; the value of `token` is unspecified.
#[inline(never)]
pub(crate) fn read_buffered_line(
    alloc: Global,
    bytes: &[u8],
    token: &mut yaml_token_t,
) -> Result<usize, LineProblem>
    ensures some { IfOk result (λ len. 0 < len → IsBufferedLine bytes.now len token.new) }
    ensures problem { IfErr result (λ problem. problem ≡ LineProblem.Memory) }
{
    if bytes.len() < ROOM {
        return Ok(0);
    }
    let NameRead { type_, end: name } = read_buffered_name(bytes);
    if name == 0 {
        return Ok(0);
    }
    let mut row = NO_ROW;
    let start = read_buffered_mark(bytes, name + 1, &mut row, &mut token.start_mark);
    if start == 0 || bytes[start] != b' ' {
        return Ok(0);
    }
    let end = read_buffered_mark(bytes, start + 1, &mut row, &mut token.end_mark);
    if end == 0 {
        return Ok(0);
    }
    read_buffered_content(alloc, type_, bytes, end, &mut token.content)
}

/// Reads the content of a token of this type, whose marks end at `end`, and returns the line's length, or 0.
#[inline(always)]
fn read_buffered_content(
    alloc: Global,
    type_: yaml_token_type_t,
    bytes: &[u8],
    end: usize,
    content: &mut unnamed_yaml_token_t_data,
) -> Result<usize, LineProblem>
    requires { end + 1 < length bytes.now }
    ensures some { IfOk result (λ len. 0 < len → IsBufferedContent type_ bytes.now end len content.new) }
    ensures problem { IfErr result (λ problem. problem ≡ LineProblem.Memory) }
{
    if bytes[end] == b'\n' {
        return ended(end, read_bare_content(type_, content));
    }
    if bytes[end] != b' ' {
        return Ok(0);
    }
    let rest = &bytes[end + 1..];
    if type_ == yaml_token_type_t::YAML_SCALAR_TOKEN {
        if let Some(text) = plain_text(rest) {
            put_plain_scalar(alloc, text, content)?;
            return Ok(end + text.len() + 8);
        }
    }
    let len = len_before(rest, b'\n');
    if len == rest.len() {
        return Ok(0);
    }
    ended(
        end + len + 1,
        read_pieces(alloc, type_, Pieces::new(&rest[..len], b' '), content),
    )
}

/// Returns the length of a line whose content was read; 0 if it is no token's.
#[inline(always)]
fn ended(len: usize, read: Result<(), LineProblem>) -> Result<usize, LineProblem>
    ensures some { IfOk result (λ l. 0 < l → (l ≡ len) × (read ≡ Ok tt)) }
    ensures problem { IfErr result (λ problem. problem ≡ LineProblem.Memory) }
{
    match read {
        Ok(()) => Ok(len),
        Err(LineProblem::Memory) => Err(LineProblem::Memory),
        Err(_) => Ok(0),
    }
}

/// Returns the text of a plain scalar whose fields begin the bytes, if it has no escape.
#[inline(always)]
fn plain_text(rest: &[u8]) -> Option<&[u8]>
    requires { 0 < length rest.now }
    ensures { IfSome result (λ text. All IsClean text.now
        × (take (length text.now + 8) rest.now ≡ 61 ∷ (text.now ++ codes " plain\n"))) }
{
    if rest[0] != b'=' {
        return None;
    }
    let end = clean_end(rest, 1);
    if begins_with(&rest[end..], b" plain\n") {
        Some(&rest[1..end])
    } else {
        None
    }
}

/// Puts a plain scalar with a text that has no escape.
#[inline(always)]
#[tactic(auto, using(crate::proofs::tokens::Texts::clean_text))]
fn put_plain_scalar(
    alloc: Global,
    text: &[u8],
    content: &mut unnamed_yaml_token_t_data,
) -> Result<(), LineProblem>
    requires { All IsClean text.now }
    ensures reads { IsReadInto result content.new
        (content_of_two YAML_SCALAR_TOKEN (61 ∷ text.now) (codes "plain")) }
    ensures problem { IfErr result (λ problem. problem ≡ LineProblem.Memory) }
{
    let value = String::from_str(alloc, ascii_str(text))?;
    let style = yaml_scalar_style_t::YAML_PLAIN_SCALAR_STYLE;
    *content = unnamed_yaml_token_t_data::Scalar(unnamed_yaml_token_t_data_scalar { value, style });
    Ok(())
}
