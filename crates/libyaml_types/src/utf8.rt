//! Which bytes are texts, and their copies.

ghost use Rattle.std.specs.Prelude.{◌≡◌, Err, IfOk, IfSome, IsTrue, IsUtf8, OnErr, OnOk, ◌↔◌};
ghost use Rattle.std.specs.Prelude.{IsErrOf, IfErr, ◌⊎◌, option_map, string_bytes};
ghost use Rattle.std.specs.Option.{option_copied};
ghost use Rattle.libyaml_types.specs.Texts.{PairIsUtf8, PairsAreUtf8};

use crate::refusal::yaml_refusal_t;
use std::alloc::{AllocError, Global};

/// Returns the text of these bytes. Takes no memory.
///
/// # Errors
///
/// `NotUtf8` if the bytes aren't UTF-8.
pub fn checked(bytes: &[u8]) -> Result<&str, yaml_refusal_t>
    ensures ok { IfOk result (λ text. text.now ≡ bytes.now) }
    ensures utf8 { OnOk result (IsUtf8 bytes.now) }
    ensures not_utf8 { OnErr result (¬ IsUtf8 bytes.now) }
    ensures error { OnErr result (result ≡ Err yaml_refusal_t.NotUtf8) }
{
    simdutf8::compat::from_utf8(bytes).map_err(|_| yaml_refusal_t::NotUtf8)
}

/// Returns the text of these bytes, if they are given. Takes no memory.
///
/// # Errors
///
/// `NotUtf8` if the bytes aren't UTF-8.
pub(crate) fn checked_option(bytes: Option<&[u8]>) -> Result<Option<&str>, yaml_refusal_t>
    ensures ok { IfOk result (λ text. option_copied text ≡ option_copied bytes.entry) }
    ensures utf8 { OnOk result (IfSome (option_copied bytes.entry) IsUtf8) }
    ensures not_utf8 { OnErr result (¬ IfSome (option_copied bytes.entry) IsUtf8) }
    ensures error { OnErr result (result ≡ Err yaml_refusal_t.NotUtf8) }
{
    bytes.map(checked).transpose()
}

/// Returns whether all handles and prefixes are UTF-8. Takes no memory.
pub(crate) fn are_utf8_pairs(pairs: &[(&[u8], &[u8])]) -> bool
    ensures { IsTrue result ↔ PairsAreUtf8 pairs.now }
{
    pairs.iter().all(is_utf8_pair)
}

/// Returns whether a handle and its prefix are both UTF-8.
fn is_utf8_pair(pair: &(&[u8], &[u8])) -> bool
    ensures { IsTrue result ↔ PairIsUtf8 pair.now }
{
    checked(pair.0).is_ok() && checked(pair.1).is_ok()
}

/// Returns a copy of this text, if it is given.
///
/// # Errors
///
/// `AllocError` if an allocation fails.
pub(crate) fn copied_option(alloc: Global, text: Option<&str>) -> Result<Option<String>, AllocError>
    ensures { IfOk result (λ copy. option_map string_bytes copy ≡ option_copied text.entry) }
{
    text.map(|text| String::from_str(alloc, text)).transpose()
}

/// Returns a copy of these bytes.
///
/// # Errors
///
/// `NotUtf8` if the bytes aren't UTF-8, before anything is allocated; `Memory` if an allocation fails.
pub fn copied(alloc: Global, bytes: &[u8]) -> Result<String, yaml_refusal_t>
    ensures ok { IfOk result (λ text. string_bytes text ≡ bytes.now) }
    ensures utf8 { OnOk result (IsUtf8 bytes.now) }
    ensures memory { IsErrOf result yaml_refusal_t.Memory → IsUtf8 bytes.now }
    ensures not_utf8 { IsErrOf result yaml_refusal_t.NotUtf8 ↔ ¬ IsUtf8 bytes.now }
    ensures errors { IfErr result (λ e. (e ≡ yaml_refusal_t.NotUtf8) ⊎ (e ≡ yaml_refusal_t.Memory)) }
{
    let text = checked(bytes)?;
    Ok(String::from_str(alloc, text)?)
}
