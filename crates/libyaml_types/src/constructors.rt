//! Calls that make events, and calls that empty tokens and events.

ghost use Rattle.std.specs.Prelude.{◌≡◌, IfErr, IfOk, IsErrOf, IsUtf8, OnOk, map, ◌↔◌, ◌⊎◌};
ghost use Rattle.std.specs.Option.{option_copied};
ghost use Rattle.libyaml_types.specs.Events.{empty_token, empty_event, stream_start_event};
ghost use Rattle.libyaml_types.specs.Events.{stream_end_event, document_start_event};
ghost use Rattle.libyaml_types.specs.Events.{document_end_event, alias_event, scalar_event};
ghost use Rattle.libyaml_types.specs.Events.{sequence_start_event, sequence_end_event};
ghost use Rattle.libyaml_types.specs.Events.{mapping_start_event, mapping_end_event, unmarked};
ghost use Rattle.libyaml_types.specs.Texts.{PropertiesAreUtf8, PairsAreUtf8, ScalarIsUtf8, directive_of};

use crate::directive::{directives_of_pairs, yaml_version_directive_t};
use crate::enums::{
    yaml_encoding_t, yaml_mapping_style_t, yaml_scalar_style_t, yaml_sequence_style_t,
};
use crate::event::{
    unnamed_yaml_event_t_data, unnamed_yaml_event_t_data_alias,
    unnamed_yaml_event_t_data_document_end, unnamed_yaml_event_t_data_document_start,
    unnamed_yaml_event_t_data_mapping_start, unnamed_yaml_event_t_data_scalar,
    unnamed_yaml_event_t_data_sequence_start, unnamed_yaml_event_t_data_stream_start, yaml_event_t,
};
use crate::mark::ZERO_MARK;
use crate::refusal::yaml_refusal_t;
use crate::token::{unnamed_yaml_token_t_data, yaml_token_t};
use crate::utf8::{checked, checked_option, copied, copied_option};
use std::alloc::Global;

/// Returns the event of this content, with zero marks.
fn unmarked_event(content: unnamed_yaml_event_t_data) -> yaml_event_t
    ensures { result ≡ unmarked content }
{
    yaml_event_t {
        content,
        start_mark: ZERO_MARK,
        end_mark: ZERO_MARK,
    }
}

/// Returns the start of a stream in this encoding, with zero marks. Takes no memory.
///
/// libyaml: `yaml_stream_start_event_initialize`.
pub fn yaml_stream_start_event_initialize(encoding: yaml_encoding_t) -> yaml_event_t
    ensures { result ≡ stream_start_event encoding }
{
    let start = unnamed_yaml_event_t_data_stream_start { encoding };
    unmarked_event(unnamed_yaml_event_t_data::StreamStart(start))
}

/// Returns the end of a stream, with zero marks. Takes no memory.
///
/// libyaml: `yaml_stream_end_event_initialize`.
pub fn yaml_stream_end_event_initialize() -> yaml_event_t
    ensures { result ≡ stream_end_event }
{
    unmarked_event(unnamed_yaml_event_t_data::StreamEnd)
}

/// Returns the start of a document with this version and these tag directives, each a handle and its
/// prefix, with zero marks.
///
/// A handle may be any text, and may be there twice.
///
/// # Errors
///
/// `NotUtf8` if a handle or prefix isn't UTF-8, before anything is allocated; `Memory` if an allocation
/// fails. Nothing else is checked.
///
/// libyaml: `yaml_document_start_event_initialize`.
pub fn yaml_document_start_event_initialize(
    alloc: Global,
    version_directive: Option<yaml_version_directive_t>,
    tag_directives: &[(&[u8], &[u8])],
    implicit: bool,
) -> Result<yaml_event_t, yaml_refusal_t>
    ensures ok { IfOk result (λ event. event ≡
        document_start_event version_directive (map directive_of tag_directives.now) implicit) }
    ensures utf8 { OnOk result (PairsAreUtf8 tag_directives.now) }
    ensures memory { IsErrOf result yaml_refusal_t.Memory → PairsAreUtf8 tag_directives.now }
    ensures not_utf8 { IsErrOf result yaml_refusal_t.NotUtf8 ↔ ¬ PairsAreUtf8 tag_directives.now }
    ensures errors { IfErr result (λ e. (e ≡ yaml_refusal_t.NotUtf8) ⊎ (e ≡ yaml_refusal_t.Memory)) }
{
    let start = unnamed_yaml_event_t_data_document_start {
        version_directive,
        tag_directives: directives_of_pairs(alloc, tag_directives)?,
        implicit,
    };
    Ok(unmarked_event(unnamed_yaml_event_t_data::DocumentStart(start)))
}

/// Returns the end of a document, with zero marks. Takes no memory.
///
/// libyaml: `yaml_document_end_event_initialize`.
pub fn yaml_document_end_event_initialize(implicit: bool) -> yaml_event_t
    ensures { result ≡ document_end_event implicit }
{
    let end = unnamed_yaml_event_t_data_document_end { implicit };
    unmarked_event(unnamed_yaml_event_t_data::DocumentEnd(end))
}

/// Returns an alias of the node with this anchor, with zero marks.
///
/// # Errors
///
/// `NotUtf8` if the anchor isn't UTF-8, before anything is allocated; `Memory` if an allocation fails.
///
/// libyaml: `yaml_alias_event_initialize`.
pub fn yaml_alias_event_initialize(
    alloc: Global,
    anchor: &[u8],
) -> Result<yaml_event_t, yaml_refusal_t>
    ensures ok { IfOk result (λ event. event ≡ alias_event anchor.now) }
    ensures utf8 { OnOk result (IsUtf8 anchor.now) }
    ensures memory { IsErrOf result yaml_refusal_t.Memory → IsUtf8 anchor.now }
    ensures not_utf8 { IsErrOf result yaml_refusal_t.NotUtf8 ↔ ¬ IsUtf8 anchor.now }
    ensures errors { IfErr result (λ e. (e ≡ yaml_refusal_t.NotUtf8) ⊎ (e ≡ yaml_refusal_t.Memory)) }
{
    let alias = unnamed_yaml_event_t_data_alias {
        anchor: copied(alloc, anchor)?,
    };
    Ok(unmarked_event(unnamed_yaml_event_t_data::Alias(alias)))
}

/// Returns a scalar, with zero marks.
///
/// A scalar without tag may have both flags false.
///
/// # Errors
///
/// `NotUtf8` if one of the texts isn't UTF-8, before anything is allocated; `Memory` if an allocation fails.
/// Nothing else is checked.
///
/// libyaml: `yaml_scalar_event_initialize`.
pub fn yaml_scalar_event_initialize(
    alloc: Global,
    anchor: Option<&[u8]>,
    tag: Option<&[u8]>,
    value: &[u8],
    plain_implicit: bool,
    quoted_implicit: bool,
    style: yaml_scalar_style_t,
) -> Result<yaml_event_t, yaml_refusal_t>
    ensures ok { IfOk result (λ event. event ≡
        scalar_event (option_copied anchor.entry) (option_copied tag.entry) value.now
        plain_implicit quoted_implicit style) }
    ensures utf8 { OnOk result
        (ScalarIsUtf8 (option_copied anchor.entry) (option_copied tag.entry) value.now) }
    ensures memory { IsErrOf result yaml_refusal_t.Memory →
        ScalarIsUtf8 (option_copied anchor.entry) (option_copied tag.entry) value.now }
    ensures not_utf8 { IsErrOf result yaml_refusal_t.NotUtf8 ↔
        ¬ ScalarIsUtf8 (option_copied anchor.entry) (option_copied tag.entry) value.now }
    ensures errors { IfErr result (λ e. (e ≡ yaml_refusal_t.NotUtf8) ⊎ (e ≡ yaml_refusal_t.Memory)) }
{
    let anchor = checked_option(anchor)?;
    let tag = checked_option(tag)?;
    let value = checked(value)?;
    let scalar = unnamed_yaml_event_t_data_scalar {
        anchor: copied_option(alloc, anchor)?,
        tag: copied_option(alloc, tag)?,
        value: String::from_str(alloc, value)?,
        plain_implicit,
        quoted_implicit,
        style,
    };
    Ok(unmarked_event(unnamed_yaml_event_t_data::Scalar(scalar)))
}

/// Returns the start of a sequence, with zero marks.
///
/// # Errors
///
/// `NotUtf8` if the anchor or tag isn't UTF-8, before anything is allocated; `Memory` if an allocation fails.
/// Nothing else is checked.
///
/// libyaml: `yaml_sequence_start_event_initialize`.
pub fn yaml_sequence_start_event_initialize(
    alloc: Global,
    anchor: Option<&[u8]>,
    tag: Option<&[u8]>,
    implicit: bool,
    style: yaml_sequence_style_t,
) -> Result<yaml_event_t, yaml_refusal_t>
    ensures ok { IfOk result (λ event. event ≡
        sequence_start_event (option_copied anchor.entry) (option_copied tag.entry) implicit style) }
    ensures utf8 { OnOk result
        (PropertiesAreUtf8 (option_copied anchor.entry) (option_copied tag.entry)) }
    ensures memory { IsErrOf result yaml_refusal_t.Memory →
        PropertiesAreUtf8 (option_copied anchor.entry) (option_copied tag.entry) }
    ensures not_utf8 { IsErrOf result yaml_refusal_t.NotUtf8 ↔
        ¬ PropertiesAreUtf8 (option_copied anchor.entry) (option_copied tag.entry) }
    ensures errors { IfErr result (λ e. (e ≡ yaml_refusal_t.NotUtf8) ⊎ (e ≡ yaml_refusal_t.Memory)) }
{
    let anchor = checked_option(anchor)?;
    let tag = checked_option(tag)?;
    let start = unnamed_yaml_event_t_data_sequence_start {
        anchor: copied_option(alloc, anchor)?,
        tag: copied_option(alloc, tag)?,
        implicit,
        style,
    };
    Ok(unmarked_event(unnamed_yaml_event_t_data::SequenceStart(start)))
}

/// Returns the end of a sequence, with zero marks. Takes no memory.
///
/// libyaml: `yaml_sequence_end_event_initialize`.
pub fn yaml_sequence_end_event_initialize() -> yaml_event_t
    ensures { result ≡ sequence_end_event }
{
    unmarked_event(unnamed_yaml_event_t_data::SequenceEnd)
}

/// Returns the start of a mapping, with zero marks.
///
/// # Errors
///
/// `NotUtf8` if the anchor or tag isn't UTF-8, before anything is allocated; `Memory` if an allocation fails.
/// Nothing else is checked.
///
/// libyaml: `yaml_mapping_start_event_initialize`.
pub fn yaml_mapping_start_event_initialize(
    alloc: Global,
    anchor: Option<&[u8]>,
    tag: Option<&[u8]>,
    implicit: bool,
    style: yaml_mapping_style_t,
) -> Result<yaml_event_t, yaml_refusal_t>
    ensures ok { IfOk result (λ event. event ≡
        mapping_start_event (option_copied anchor.entry) (option_copied tag.entry) implicit style) }
    ensures utf8 { OnOk result
        (PropertiesAreUtf8 (option_copied anchor.entry) (option_copied tag.entry)) }
    ensures memory { IsErrOf result yaml_refusal_t.Memory →
        PropertiesAreUtf8 (option_copied anchor.entry) (option_copied tag.entry) }
    ensures not_utf8 { IsErrOf result yaml_refusal_t.NotUtf8 ↔
        ¬ PropertiesAreUtf8 (option_copied anchor.entry) (option_copied tag.entry) }
    ensures errors { IfErr result (λ e. (e ≡ yaml_refusal_t.NotUtf8) ⊎ (e ≡ yaml_refusal_t.Memory)) }
{
    let anchor = checked_option(anchor)?;
    let tag = checked_option(tag)?;
    let start = unnamed_yaml_event_t_data_mapping_start {
        anchor: copied_option(alloc, anchor)?,
        tag: copied_option(alloc, tag)?,
        implicit,
        style,
    };
    Ok(unmarked_event(unnamed_yaml_event_t_data::MappingStart(start)))
}

/// Returns the end of a mapping, with zero marks. Takes no memory.
///
/// libyaml: `yaml_mapping_end_event_initialize`.
pub fn yaml_mapping_end_event_initialize() -> yaml_event_t
    ensures { result ≡ mapping_end_event }
{
    unmarked_event(unnamed_yaml_event_t_data::MappingEnd)
}

/// Frees what the token holds, and leaves the empty token with zero marks. Takes no memory.
///
/// libyaml: `yaml_token_delete`.
pub fn yaml_token_delete(token: &mut yaml_token_t)
    ensures { token.new ≡ empty_token }
{
    *token = yaml_token_t::new(unnamed_yaml_token_t_data::NoToken, ZERO_MARK, ZERO_MARK);
}

/// Frees what the event holds, and leaves the empty event with zero marks. Takes no memory.
///
/// libyaml: `yaml_event_delete`.
pub fn yaml_event_delete(event: &mut yaml_event_t)
    ensures { event.new ≡ empty_event }
{
    *event = unmarked_event(unnamed_yaml_event_t_data::NoEvent);
}
