//! Laws of comparisons and hashes. Each function compares two values or hashes one; its contract is the law.

ghost use Rattle.std.specs.Prelude.{◌≡◌, ◌↔◌, IsTrue, fold, pos};
ghost use Rattle.std.specs.Ordering.{nat_cmp};
ghost use Rattle.std.specs.Hash as fed;
ghost use Rattle.libyaml_types.specs.Numbers.{encoding_number, break_number, error_type_number};
ghost use Rattle.libyaml_types.specs.Numbers.{scalar_style_number, sequence_style_number};
ghost use Rattle.libyaml_types.specs.Numbers.{mapping_style_number, token_type_number};
ghost use Rattle.libyaml_types.specs.Numbers.{event_type_number, node_type_number};
ghost use Rattle.libyaml_types.specs.Numbers.{parser_state_number};

use crate::directive::{yaml_tag_directive_t, yaml_version_directive_t};
use crate::enums::{
    yaml_break_t, yaml_encoding_t, yaml_error_type_t, yaml_event_type_t, yaml_mapping_style_t,
    yaml_node_type_t, yaml_parser_state_t, yaml_scalar_style_t, yaml_sequence_style_t,
    yaml_token_type_t,
};
use crate::mark::yaml_mark_t;
use std::cmp::Ordering;
use std::hash::{Hash, Hasher};

/// Compares two of `yaml_encoding_t` by their numbers.
pub fn order_of_encodings(encoding: yaml_encoding_t, other: yaml_encoding_t) -> Ordering
    ensures { result ≡ nat_cmp (encoding_number encoding) (encoding_number other) }
{
    encoding.cmp(&other)
}

/// Compares two of `yaml_break_t` by their numbers.
pub fn order_of_breaks(line_break: yaml_break_t, other: yaml_break_t) -> Ordering
    ensures { result ≡ nat_cmp (break_number line_break) (break_number other) }
{
    line_break.cmp(&other)
}

/// Compares two of `yaml_error_type_t` by their numbers.
pub fn order_of_error_types(error_type: yaml_error_type_t, other: yaml_error_type_t) -> Ordering
    ensures { result ≡ nat_cmp (error_type_number error_type) (error_type_number other) }
{
    error_type.cmp(&other)
}

/// Compares two of `yaml_scalar_style_t` by their numbers.
pub fn order_of_scalar_styles(
    scalar_style: yaml_scalar_style_t,
    other: yaml_scalar_style_t,
) -> Ordering
    ensures { result ≡ nat_cmp (scalar_style_number scalar_style) (scalar_style_number other) }
{
    scalar_style.cmp(&other)
}

/// Compares two of `yaml_sequence_style_t` by their numbers.
pub fn order_of_sequence_styles(
    sequence_style: yaml_sequence_style_t,
    other: yaml_sequence_style_t,
) -> Ordering
    ensures { result ≡ nat_cmp (sequence_style_number sequence_style) (sequence_style_number other) }
{
    sequence_style.cmp(&other)
}

/// Compares two of `yaml_mapping_style_t` by their numbers.
pub fn order_of_mapping_styles(
    mapping_style: yaml_mapping_style_t,
    other: yaml_mapping_style_t,
) -> Ordering
    ensures { result ≡ nat_cmp (mapping_style_number mapping_style) (mapping_style_number other) }
{
    mapping_style.cmp(&other)
}

/// Compares two of `yaml_token_type_t` by their numbers.
pub fn order_of_token_types(token_type: yaml_token_type_t, other: yaml_token_type_t) -> Ordering
    ensures { result ≡ nat_cmp (token_type_number token_type) (token_type_number other) }
{
    token_type.cmp(&other)
}

/// Compares two of `yaml_event_type_t` by their numbers.
pub fn order_of_event_types(event_type: yaml_event_type_t, other: yaml_event_type_t) -> Ordering
    ensures { result ≡ nat_cmp (event_type_number event_type) (event_type_number other) }
{
    event_type.cmp(&other)
}

/// Compares two of `yaml_node_type_t` by their numbers.
pub fn order_of_node_types(node_type: yaml_node_type_t, other: yaml_node_type_t) -> Ordering
    ensures { result ≡ nat_cmp (node_type_number node_type) (node_type_number other) }
{
    node_type.cmp(&other)
}

/// Compares two of `yaml_parser_state_t` by their numbers.
pub fn order_of_parser_states(state: yaml_parser_state_t, other: yaml_parser_state_t) -> Ordering
    ensures { result ≡ nat_cmp (parser_state_number state) (parser_state_number other) }
{
    state.cmp(&other)
}

/// Returns whether two of `yaml_encoding_t` are equal, which they are exactly if their numbers are.
pub fn equality_of_encodings(encoding: yaml_encoding_t, other: yaml_encoding_t) -> bool
    ensures { IsTrue result ↔ (encoding_number encoding ≡ encoding_number other) }
{
    encoding == other
}

/// Returns whether two of `yaml_break_t` are equal, which they are exactly if their numbers are.
pub fn equality_of_breaks(line_break: yaml_break_t, other: yaml_break_t) -> bool
    ensures { IsTrue result ↔ (break_number line_break ≡ break_number other) }
{
    line_break == other
}

/// Returns whether two of `yaml_error_type_t` are equal, which they are exactly if their numbers are.
pub fn equality_of_error_types(error_type: yaml_error_type_t, other: yaml_error_type_t) -> bool
    ensures { IsTrue result ↔ (error_type_number error_type ≡ error_type_number other) }
{
    error_type == other
}

/// Returns whether two of `yaml_scalar_style_t` are equal, which they are exactly if their numbers are.
pub fn equality_of_scalar_styles(
    scalar_style: yaml_scalar_style_t,
    other: yaml_scalar_style_t,
) -> bool
    ensures { IsTrue result ↔ (scalar_style_number scalar_style ≡ scalar_style_number other) }
{
    scalar_style == other
}

/// Returns whether two of `yaml_sequence_style_t` are equal, which they are exactly if their numbers are.
pub fn equality_of_sequence_styles(
    sequence_style: yaml_sequence_style_t,
    other: yaml_sequence_style_t,
) -> bool
    ensures { IsTrue result ↔ (sequence_style_number sequence_style ≡ sequence_style_number other) }
{
    sequence_style == other
}

/// Returns whether two of `yaml_mapping_style_t` are equal, which they are exactly if their numbers are.
pub fn equality_of_mapping_styles(
    mapping_style: yaml_mapping_style_t,
    other: yaml_mapping_style_t,
) -> bool
    ensures { IsTrue result ↔ (mapping_style_number mapping_style ≡ mapping_style_number other) }
{
    mapping_style == other
}

/// Returns whether two of `yaml_token_type_t` are equal, which they are exactly if their numbers are.
pub fn equality_of_token_types(token_type: yaml_token_type_t, other: yaml_token_type_t) -> bool
    ensures { IsTrue result ↔ (token_type_number token_type ≡ token_type_number other) }
{
    token_type == other
}

/// Returns whether two of `yaml_event_type_t` are equal, which they are exactly if their numbers are.
pub fn equality_of_event_types(event_type: yaml_event_type_t, other: yaml_event_type_t) -> bool
    ensures { IsTrue result ↔ (event_type_number event_type ≡ event_type_number other) }
{
    event_type == other
}

/// Returns whether two of `yaml_node_type_t` are equal, which they are exactly if their numbers are.
pub fn equality_of_node_types(node_type: yaml_node_type_t, other: yaml_node_type_t) -> bool
    ensures { IsTrue result ↔ (node_type_number node_type ≡ node_type_number other) }
{
    node_type == other
}

/// Returns whether two of `yaml_parser_state_t` are equal, which they are exactly if their numbers are.
pub fn equality_of_parser_states(state: yaml_parser_state_t, other: yaml_parser_state_t) -> bool
    ensures { IsTrue result ↔ (parser_state_number state ≡ parser_state_number other) }
{
    state == other
}

/// Hashes one of `yaml_encoding_t` as its number, an `isize`.
pub fn hash_of_encodings<H: Hasher>(encoding: yaml_encoding_t, hasher: &mut H)
    ensures { hasher.new ≡ fold H.write hasher.old (fed.isize (pos (encoding_number encoding))) }
{
    encoding.hash(hasher);
}

/// Hashes one of `yaml_break_t` as its number, an `isize`.
pub fn hash_of_breaks<H: Hasher>(line_break: yaml_break_t, hasher: &mut H)
    ensures { hasher.new ≡ fold H.write hasher.old (fed.isize (pos (break_number line_break))) }
{
    line_break.hash(hasher);
}

/// Hashes one of `yaml_error_type_t` as its number, an `isize`.
pub fn hash_of_error_types<H: Hasher>(error_type: yaml_error_type_t, hasher: &mut H)
    ensures { hasher.new ≡ fold H.write hasher.old (fed.isize (pos (error_type_number error_type))) }
{
    error_type.hash(hasher);
}

/// Hashes one of `yaml_scalar_style_t` as its number, an `isize`.
pub fn hash_of_scalar_styles<H: Hasher>(scalar_style: yaml_scalar_style_t, hasher: &mut H)
    ensures { hasher.new ≡ fold H.write hasher.old (fed.isize (pos (scalar_style_number scalar_style))) }
{
    scalar_style.hash(hasher);
}

/// Hashes one of `yaml_sequence_style_t` as its number, an `isize`.
pub fn hash_of_sequence_styles<H: Hasher>(sequence_style: yaml_sequence_style_t, hasher: &mut H)
    ensures { hasher.new ≡ fold H.write hasher.old (fed.isize (pos (sequence_style_number sequence_style))) }
{
    sequence_style.hash(hasher);
}

/// Hashes one of `yaml_mapping_style_t` as its number, an `isize`.
pub fn hash_of_mapping_styles<H: Hasher>(mapping_style: yaml_mapping_style_t, hasher: &mut H)
    ensures { hasher.new ≡ fold H.write hasher.old (fed.isize (pos (mapping_style_number mapping_style))) }
{
    mapping_style.hash(hasher);
}

/// Hashes one of `yaml_token_type_t` as its number, an `isize`.
pub fn hash_of_token_types<H: Hasher>(token_type: yaml_token_type_t, hasher: &mut H)
    ensures { hasher.new ≡ fold H.write hasher.old (fed.isize (pos (token_type_number token_type))) }
{
    token_type.hash(hasher);
}

/// Hashes one of `yaml_event_type_t` as its number, an `isize`.
pub fn hash_of_event_types<H: Hasher>(event_type: yaml_event_type_t, hasher: &mut H)
    ensures { hasher.new ≡ fold H.write hasher.old (fed.isize (pos (event_type_number event_type))) }
{
    event_type.hash(hasher);
}

/// Hashes one of `yaml_node_type_t` as its number, an `isize`.
pub fn hash_of_node_types<H: Hasher>(node_type: yaml_node_type_t, hasher: &mut H)
    ensures { hasher.new ≡ fold H.write hasher.old (fed.isize (pos (node_type_number node_type))) }
{
    node_type.hash(hasher);
}

/// Hashes one of `yaml_parser_state_t` as its number, an `isize`.
pub fn hash_of_parser_states<H: Hasher>(state: yaml_parser_state_t, hasher: &mut H)
    ensures { hasher.new ≡ fold H.write hasher.old (fed.isize (pos (parser_state_number state))) }
{
    state.hash(hasher);
}

/// Returns whether two of `yaml_mark_t` are equal, which they are exactly if all their fields are.
pub fn equality_of_marks(mark: yaml_mark_t, other: yaml_mark_t) -> bool
    ensures { IsTrue result ↔ (mark ≡ other) }
{
    mark == other
}

/// Returns whether two of `yaml_version_directive_t` are equal, which they are exactly if all their fields
/// are.
pub fn equality_of_versions(
    version: yaml_version_directive_t,
    other: yaml_version_directive_t,
) -> bool
    ensures { IsTrue result ↔ (version ≡ other) }
{
    version == other
}

/// Returns whether two lists of `yaml_tag_directive_t` are equal, which they are exactly if their members
/// are, in order.
pub fn equality_of_directives(
    directives: &[yaml_tag_directive_t],
    other: &[yaml_tag_directive_t],
) -> bool
    ensures { IsTrue result ↔ (directives.now ≡ other.now) }
{
    directives == other
}
