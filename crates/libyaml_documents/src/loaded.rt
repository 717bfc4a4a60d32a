//! Nodes made of events, by the rule of a load: no tag, or `!`, is the tag of the node's kind.
//!
//! The marks are written field by field: a copy of the whole mark takes more instructions, 13 a node.

ghost use Rattle.std.specs.Prelude.{◌≡◌, [], true, IfOk, OnErr, Some, option_map, string_bytes};
ghost use Rattle.libyaml_documents.specs.LoadedNodes.{loaded_tag, mapping_loaded, scalar_loaded};
ghost use Rattle.libyaml_documents.specs.LoadedNodes.{sequence_loaded, takes_default};
ghost use Rattle.libyaml_documents.specs.Nodes.{ids_of};

use crate::node::{
    unnamed_yaml_node_t_data, unnamed_yaml_node_t_data_mapping, unnamed_yaml_node_t_data_scalar,
    unnamed_yaml_node_t_data_sequence, yaml_node_t,
};
use libyaml_types::{
    unnamed_yaml_event_t_data_mapping_start, unnamed_yaml_event_t_data_scalar,
    unnamed_yaml_event_t_data_sequence_start, yaml_mark_t,
};
use std::alloc::{AllocError, Global};
use std::mem;

/// Returns the tag of a loaded node: the given one, moved out, or `default` if none is given, or `!`.
///
/// # Errors
///
/// `AllocError` if the copy of `default` can't be allocated; `tag` is then as it was.
#[inline(always)]
fn tag_of(alloc: Global, tag: &mut Option<String>, default: &str) -> Result<String, AllocError>
    ensures ok { IfOk result (λ text. string_bytes text
        ≡ loaded_tag default.now (option_map string_bytes tag.old)) }
    ensures refused { OnErr result (takes_default (option_map string_bytes tag.old) ≡ true) }
    ensures unchanged { OnErr result (tag.new ≡ tag.old) }
{
    match tag {
        Some(tag) => given_tag(alloc, tag, default),
        None => String::from_str(alloc, default),
    }
}

/// Returns the given tag, moved out, or the default one in place of `!`. It is a function of its own since
/// few nodes have a tag.
///
/// # Errors
///
/// `AllocError` if the copy of `default` can't be allocated; `tag` is then as it was.
#[inline(never)]
fn given_tag(alloc: Global, tag: &mut String, default: &str) -> Result<String, AllocError>
    ensures ok { IfOk result (λ text. string_bytes text
        ≡ loaded_tag default.now (Some (string_bytes tag.old))) }
    ensures refused { OnErr result (takes_default (Some (string_bytes tag.old)) ≡ true) }
    ensures unchanged { OnErr result (tag.new ≡ tag.old) }
{
    if tag.as_str() == "!" {
        String::from_str(alloc, default)
    } else {
        Ok(mem::replace(tag, String::new(alloc)))
    }
}

/// Returns the node of a scalar event at these marks. Its tag and value are moved out of the event.
///
/// Without a tag, or with `!`, its tag is `tag:yaml.org,2002:str`, and only then it allocates.
///
/// # Errors
///
/// `AllocError` if that allocation fails; the event is then as it was.
#[inline(always)]
pub fn scalar_of_event(
    alloc: Global,
    scalar: &mut unnamed_yaml_event_t_data_scalar,
    start_mark: &yaml_mark_t,
    end_mark: &yaml_mark_t,
) -> Result<yaml_node_t, AllocError>
    ensures ok { IfOk result (λ node. node ≡ scalar_loaded scalar.old start_mark.now end_mark.now) }
    ensures childless { IfOk result (λ node. ids_of node.content ≡ []) }
    ensures refused { OnErr result (takes_default scalar.old.tag ≡ true) }
    ensures unchanged { OnErr result (scalar.new ≡ scalar.old) }
{
    let tag = tag_of(alloc, &mut scalar.tag, "tag:yaml.org,2002:str")?;
    let content = unnamed_yaml_node_t_data_scalar {
        value: mem::replace(&mut scalar.value, String::new(alloc)),
        style: scalar.style,
    };
    Ok(yaml_node_t {
        tag,
        content: unnamed_yaml_node_t_data::Scalar(content),
        start_mark: yaml_mark_t {
            index: start_mark.index,
            line: start_mark.line,
            column: start_mark.column,
        },
        end_mark: yaml_mark_t {
            index: end_mark.index,
            line: end_mark.line,
            column: end_mark.column,
        },
    })
}

/// Returns the node, without items, of a sequence whose start event is at these marks. Its tag is moved out
/// of the event. Set its end mark when the sequence ends.
///
/// Without a tag, or with `!`, its tag is `tag:yaml.org,2002:seq`, and only then it allocates.
///
/// # Errors
///
/// `AllocError` if that allocation fails; the event is then as it was.
#[inline(always)]
pub fn sequence_of_event(
    alloc: Global,
    start: &mut unnamed_yaml_event_t_data_sequence_start,
    start_mark: &yaml_mark_t,
    end_mark: &yaml_mark_t,
) -> Result<yaml_node_t, AllocError>
    ensures ok { IfOk result (λ node. node
        ≡ sequence_loaded start.old.tag start.old.style [] start_mark.now end_mark.now) }
    ensures childless { IfOk result (λ node. ids_of node.content ≡ []) }
    ensures refused { OnErr result (takes_default start.old.tag ≡ true) }
    ensures unchanged { OnErr result (start.new ≡ start.old) }
{
    let tag = tag_of(alloc, &mut start.tag, "tag:yaml.org,2002:seq")?;
    let content = unnamed_yaml_node_t_data_sequence {
        items: Vec::new(alloc),
        style: start.style,
    };
    Ok(yaml_node_t {
        tag,
        content: unnamed_yaml_node_t_data::Sequence(content),
        start_mark: yaml_mark_t {
            index: start_mark.index,
            line: start_mark.line,
            column: start_mark.column,
        },
        end_mark: yaml_mark_t {
            index: end_mark.index,
            line: end_mark.line,
            column: end_mark.column,
        },
    })
}

/// Returns the node, without pairs, of a mapping whose start event is at these marks. Its tag is moved out of
/// the event. Set its end mark when the mapping ends.
///
/// Without a tag, or with `!`, its tag is `tag:yaml.org,2002:map`, and only then it allocates.
///
/// # Errors
///
/// `AllocError` if that allocation fails; the event is then as it was.
#[inline(always)]
pub fn mapping_of_event(
    alloc: Global,
    start: &mut unnamed_yaml_event_t_data_mapping_start,
    start_mark: &yaml_mark_t,
    end_mark: &yaml_mark_t,
) -> Result<yaml_node_t, AllocError>
    ensures ok { IfOk result (λ node. node
        ≡ mapping_loaded start.old.tag start.old.style [] start_mark.now end_mark.now) }
    ensures childless { IfOk result (λ node. ids_of node.content ≡ []) }
    ensures refused { OnErr result (takes_default start.old.tag ≡ true) }
    ensures unchanged { OnErr result (start.new ≡ start.old) }
{
    let tag = tag_of(alloc, &mut start.tag, "tag:yaml.org,2002:map")?;
    let content = unnamed_yaml_node_t_data_mapping {
        pairs: Vec::new(alloc),
        style: start.style,
    };
    Ok(yaml_node_t {
        tag,
        content: unnamed_yaml_node_t_data::Mapping(content),
        start_mark: yaml_mark_t {
            index: start_mark.index,
            line: start_mark.line,
            column: start_mark.column,
        },
        end_mark: yaml_mark_t {
            index: end_mark.index,
            line: end_mark.line,
            column: end_mark.column,
        },
    })
}
