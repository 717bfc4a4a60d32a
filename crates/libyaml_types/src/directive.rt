//! The directives of a document.

ghost use Rattle.std.specs.Prelude.{◌≡◌, map, ◌↔◌, ◌⊎◌, IfErr, IfOk, OnOk, IsErrOf};
ghost use Rattle.libyaml_types.specs.Texts.{PairIsUtf8, PairsAreUtf8, directive_of};

use crate::refusal::yaml_refusal_t;
use crate::utf8::{are_utf8_pairs, checked};
use std::alloc::{AllocError, Global};
use std::marker::Model;

/// The version that a document asks for, as `1.1`.
///
/// libyaml: `yaml_version_directive_t`.
#[derive(Copy, Clone, PartialEq, Eq, Debug)]
pub struct yaml_version_directive_t {
    /// The number before the point.
    pub major: i32,
    /// The number after the point.
    pub minor: i32,
}

/// A tag handle, and the prefix that stands for it in a document.
///
/// libyaml: `yaml_tag_directive_t`.
#[derive(Debug, Drop)]
pub struct yaml_tag_directive_t {
    /// The handle, as `!!`.
    pub handle: String,
    /// The prefix that replaces the handle.
    pub prefix: String,
}

impl Model for yaml_tag_directive_t {
    ghost use Rattle.std.specs.Prelude.{string_bytes};
    ghost use Rattle.libyaml_types.specs.Models.{TagDirective};

    ghost Value = { TagDirective };

    ghost view = { λ s. record {
      handle = string_bytes s.handle;
      prefix = string_bytes s.prefix;
    } };
}

impl PartialEq for yaml_tag_directive_t {
    ghost use Rattle.std.specs.Cmp.{partial_equiv_from_equiv};
    ghost use Rattle.libyaml_types.specs.Equal.{same_directive, same_directive_equiv};

    ghost eq = { same_directive };

    ghost laws = { partial_equiv_from_equiv same_directive_equiv };

    fn eq(&self, other: &Self) -> bool {
        self.handle == other.handle && self.prefix == other.prefix
    }
}

impl Eq for yaml_tag_directive_t {
    ghost use Rattle.libyaml_types.specs.Equal.{same_directive_equiv};

    ghost laws = { same_directive_equiv };
}

/// Returns the directives of these handles and prefixes.
///
/// # Errors
///
/// `NotUtf8` if a handle or prefix isn't UTF-8, before anything is allocated; `Memory` if an allocation
/// fails.
pub fn directives_of_pairs(
    alloc: Global,
    pairs: &[(&[u8], &[u8])],
) -> Result<Vec<yaml_tag_directive_t>, yaml_refusal_t>
    ensures ok { IfOk result (λ list. list.items ≡ map directive_of pairs.now) }
    ensures utf8 { OnOk result (PairsAreUtf8 pairs.now) }
    ensures memory { IsErrOf result yaml_refusal_t.Memory → PairsAreUtf8 pairs.now }
    ensures not_utf8 { IsErrOf result yaml_refusal_t.NotUtf8 ↔ ¬ PairsAreUtf8 pairs.now }
    ensures errors { IfErr result (λ e. (e ≡ yaml_refusal_t.NotUtf8) ⊎ (e ≡ yaml_refusal_t.Memory)) }
{
    if !are_utf8_pairs(pairs) {
        return Err(yaml_refusal_t::NotUtf8);
    }
    Ok(copied_pairs(alloc, pairs)?)
}

/// Returns the directives of these handles and prefixes, each text a copy.
///
/// # Errors
///
/// `AllocError` if an allocation fails.
fn copied_pairs(
    alloc: Global,
    pairs: &[(&[u8], &[u8])],
) -> Result<Vec<yaml_tag_directive_t>, AllocError>
    requires { PairsAreUtf8 pairs.now }
    ensures { IfOk result (λ list. list.items ≡ map directive_of pairs.now) }
{
    let mut list = Vec::with_capacity(alloc, pairs.len())?;
    for pair in pairs {
        list.push(copied_pair(alloc, pair)?)?;
    }
    Ok(list)
}

/// Returns the directive of this handle and prefix, each a copy.
///
/// # Errors
///
/// `AllocError` if an allocation fails.
fn copied_pair(alloc: Global, pair: &(&[u8], &[u8])) -> Result<yaml_tag_directive_t, AllocError>
    requires { PairIsUtf8 pair.now }
    ensures { IfOk result (λ directive. directive ≡ directive_of pair.now) }
{
    Ok(yaml_tag_directive_t {
        handle: String::from_str(alloc, checked(pair.0).unwrap())?,
        prefix: String::from_str(alloc, checked(pair.1).unwrap())?,
    })
}
