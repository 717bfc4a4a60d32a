//! The fields of a token line.
ghost use Rattle.std.specs.Prelude.{◌≡◌};
ghost use Rattle.line_reading.specs.tokens.Field.{version_in_field, utf8_text, text_of};
ghost use Rattle.line_reading.specs.tokens.Field.{encoding_of, scalar_style_of};
ghost use Rattle.percent_encoding.specs.Percent as percent;
ghost use Rattle.line_reading.specs.tokens.Reading.{IsTextReadAs};

use crate::bytes::is_clean;
use crate::line_problem::LineProblem;
use crate::number::read_signed;
use crate::pieces::Pieces;
use libyaml_types::{
    unnamed_yaml_token_t_data_version_directive, yaml_encoding_t, yaml_scalar_style_t,
};
use percent_encoding::{ascii_str, percent_decode};
use std::alloc::Global;

/// Reads two signed numbers with a point between them.
pub(crate) fn read_version(field: &[u8]) -> Option<unnamed_yaml_token_t_data_version_directive>
    ensures { result ≡ version_in_field field.now }
{
    let mut pieces = Pieces::new(field, b'.');
    let major = pieces.next()?;
    let minor = pieces.next()?;
    if pieces.next().is_some() {
        return None;
    }
    Some(unnamed_yaml_token_t_data_version_directive {
        major: read_signed(major)?,
        minor: read_signed(minor)?,
    })
}

/// Reads `=` and an escaped text.
///
/// # Errors
///
/// `BadTokenLine` if it is none, and `Memory` if an allocation fails.
#[inline(always)]
pub(crate) fn read_text(alloc: Global, field: &[u8]) -> Result<String, LineProblem>
    ensures { IsTextReadAs result (text_of field.now) }
{
    let [b'=', escaped @ ..] = field else {
        return Err(LineProblem::BadTokenLine);
    };
    escaped_text(alloc, escaped)
}

#[inline(always)]
#[tactic(auto, using(crate::proofs::tokens::Texts::clean_text))]
fn escaped_text(alloc: Global, escaped: &[u8]) -> Result<String, LineProblem>
    ensures { IsTextReadAs result (utf8_text (percent.percent_decode escaped.now)) }
{
    if is_clean(escaped) {
        Ok(String::from_str(alloc, ascii_str(escaped))?)
    } else {
        decoded_text(alloc, escaped)
    }
}

#[inline(never)]
fn decoded_text(alloc: Global, escaped: &[u8]) -> Result<String, LineProblem>
    ensures { IsTextReadAs result (utf8_text (percent.percent_decode escaped.now)) }
{
    let mut bytes = Vec::with_capacity(alloc, escaped.len())?;
    percent_decode(escaped).append_to(&mut bytes)?;
    match String::from_utf8(bytes) {
        Ok(text) => Ok(text),
        Err(_) => Err(LineProblem::BadTokenLine),
    }
}

/// Returns an encoding by its name.
pub(crate) fn read_encoding(name: &[u8]) -> Option<yaml_encoding_t>
    ensures { result ≡ encoding_of name.now }
{
    if name == b"any".as_slice() {
        Some(yaml_encoding_t::YAML_ANY_ENCODING)
    } else if name == b"utf8".as_slice() {
        Some(yaml_encoding_t::YAML_UTF8_ENCODING)
    } else if name == b"utf16le".as_slice() {
        Some(yaml_encoding_t::YAML_UTF16LE_ENCODING)
    } else if name == b"utf16be".as_slice() {
        Some(yaml_encoding_t::YAML_UTF16BE_ENCODING)
    } else {
        None
    }
}

/// Returns a scalar style by its name.
pub(crate) fn read_scalar_style(name: &[u8]) -> Option<yaml_scalar_style_t>
    ensures { result ≡ scalar_style_of name.now }
{
    if name == b"any".as_slice() {
        Some(yaml_scalar_style_t::YAML_ANY_SCALAR_STYLE)
    } else if name == b"plain".as_slice() {
        Some(yaml_scalar_style_t::YAML_PLAIN_SCALAR_STYLE)
    } else if name == b"single".as_slice() {
        Some(yaml_scalar_style_t::YAML_SINGLE_QUOTED_SCALAR_STYLE)
    } else if name == b"double".as_slice() {
        Some(yaml_scalar_style_t::YAML_DOUBLE_QUOTED_SCALAR_STYLE)
    } else if name == b"literal".as_slice() {
        Some(yaml_scalar_style_t::YAML_LITERAL_SCALAR_STYLE)
    } else if name == b"folded".as_slice() {
        Some(yaml_scalar_style_t::YAML_FOLDED_SCALAR_STYLE)
    } else {
        None
    }
}
