//! The calls that add a node to a document.

ghost use Rattle.std.specs.Prelude.{◌≡◌, ◌+◌, ◌<◌, ◌↔◌, pos, [], Err, IfOk, IfSome, OnOk, OnErr};
ghost use Rattle.std.specs.Prelude.{IsErrOf, IsUtf8, is_ok, length, ◌++◌, ◌∷◌, if◌then◌else◌};
ghost use Rattle.std.specs.Option.{option_copied};
ghost use Rattle.libyaml_documents.specs.Documents.{most_nodes, with_node};
ghost use Rattle.libyaml_documents.specs.Nodes.{ids_of, node_of, node_type, tag_or, type_at};
ghost use Rattle.libyaml_documents.specs.Nodes.{KeepsTypes, scalar_node, sequence_node};
ghost use Rattle.libyaml_documents.specs.Nodes.{mapping_node};

use super::yaml_document_t;
use crate::node::{
    unnamed_yaml_node_t_data, unnamed_yaml_node_t_data_mapping, unnamed_yaml_node_t_data_scalar,
    unnamed_yaml_node_t_data_sequence, yaml_node_t,
};
use libyaml_types::utf8::checked;
use libyaml_types::{
    ZERO_MARK, yaml_mapping_style_t, yaml_node_type_t, yaml_refusal_t, yaml_scalar_style_t,
    yaml_sequence_style_t,
};
use std::alloc::{AllocError, Global};

const MOST_NODES: usize = 2147483647;

/// From how many nodes on a list of nodes grows fourfold.
const MANY_NODES: usize = 512;

/// Checks that an id is left for one more node.
///
/// # Errors
///
/// `TooManyNodes` if the document has 2147483647 nodes.
pub(super) fn has_room(document: &yaml_document_t) -> Result<(), yaml_refusal_t>
    ensures ok { OnOk result (length document.now.nodes < most_nodes) }
    ensures err { OnErr result ((result ≡ Err yaml_refusal_t.TooManyNodes)
        × (length document.now.nodes ≡ most_nodes)) }
{
    if document.nodes.len() < MOST_NODES {
        Ok(())
    } else {
        Err(yaml_refusal_t::TooManyNodes)
    }
}

/// Returns the text of a given tag, or `default` if none is given. Takes no memory.
///
/// # Errors
///
/// `NotUtf8` if the tag isn't UTF-8.
fn checked_tag<'a>(tag: Option<&'a [u8]>, default: &'a str) -> Result<&'a str, yaml_refusal_t>
    ensures ok { IfOk result (λ text. text.now ≡ tag_or default.now (option_copied tag.entry)) }
    ensures utf8 { OnOk result (IfSome (option_copied tag.entry) IsUtf8) }
    ensures not_utf8 { OnErr result (¬ IfSome (option_copied tag.entry) IsUtf8) }
    ensures error { OnErr result (result ≡ Err yaml_refusal_t.NotUtf8) }
{
    match tag {
        None => Ok(default),
        Some(bytes) => checked(bytes),
    }
}

/// Returns a node of this content, with a copy of the tag and zero marks.
///
/// # Errors
///
/// `Memory` if an allocation fails.
fn new_node(
    alloc: Global,
    tag: &str,
    content: unnamed_yaml_node_t_data,
) -> Result<yaml_node_t, yaml_refusal_t>
    ensures ok { IfOk result (λ node. node ≡ node_of tag.now content) }
    ensures err { OnErr result (result ≡ Err yaml_refusal_t.Memory) }
{
    Ok(yaml_node_t {
        tag: String::from_str(alloc, tag)?,
        content,
        start_mark: ZERO_MARK,
        end_mark: ZERO_MARK,
    })
}

/// Appends a node to a list. One of many nodes, where it is full, grows fourfold rather than twofold.
///
/// The blocks that it left are then a third of it. After twofold growth they are as long as the list itself,
/// which makes glibc give memory back to the system when the document is freed, and the next document has its
/// pages mapped in anew.
///
/// # Errors
///
/// `AllocError` where an allocation fails; the list is then as it was.
#[inline(always)]
fn push(nodes: &mut Vec<yaml_node_t>, node: yaml_node_t) -> Result<(), AllocError>
    ensures items { nodes.new.items
        ≡ (if is_ok result then nodes.old.items ++ node ∷ [] else nodes.old.items) }
{
    if nodes.len() == nodes.capacity() {
        lengthen(nodes);
    }
    match nodes.push(node) {
        Ok(()) => Ok(()),
        Err(_) => Err(AllocError),
    }
}

/// Makes a full list of many nodes four times as long. Where memory isn't there for that, the list stays.
#[cold]
#[inline(never)]
fn lengthen(nodes: &mut Vec<yaml_node_t>)
    ensures { nodes.new.items ≡ nodes.old.items }
{
    let count = nodes.len();
    if count >= MANY_NODES {
        let _ = nodes.reserve(count.saturating_mul(3));
    }
}

/// Appends a node without children, and returns its id.
///
/// # Errors
///
/// `Memory` if an allocation fails; the document is then as it was.
#[inline(always)]
pub(super) fn push_node(
    document: &mut yaml_document_t,
    node: yaml_node_t,
) -> Result<i32, yaml_refusal_t>
    requires room { length document.old.nodes < most_nodes }
    requires childless { ids_of node.content ≡ [] }
    ensures ok { IfOk result (λ id. id ≡ pos (length document.old.nodes + 1)) }
    ensures added { OnOk result (document.new ≡ with_node document.old node) }
    ensures refused { OnErr result (result ≡ Err yaml_refusal_t.Memory) }
    ensures unchanged { OnErr result (document.new ≡ document.old) }
    ensures count { OnOk result (length document.new.nodes ≡ length document.old.nodes + 1) }
    ensures type_is { IfOk result (λ id. type_at document.new.nodes id ≡ node_type node.content) }
    ensures types_kept { KeepsTypes document.old.nodes document.new.nodes }
{
    match push(&mut document.nodes, node) {
        Ok(()) => Ok(document.nodes.len() as i32),
        Err(_) => Err(yaml_refusal_t::Memory),
    }
}

/// Appends a scalar, and returns its id, which is the new number of nodes. Its marks are zero, and without a
/// tag its tag is `tag:yaml.org,2002:str`.
///
/// # Errors
///
/// `TooManyNodes` if the document has 2147483647 nodes, else `NotUtf8` if the tag or the value isn't UTF-8,
/// else `Memory` if an allocation fails; the document is then as it was.
///
/// libyaml: `yaml_document_add_scalar`.
pub fn yaml_document_add_scalar(
    document: &mut yaml_document_t,
    tag: Option<&[u8]>,
    value: &[u8],
    style: yaml_scalar_style_t,
) -> Result<i32, yaml_refusal_t>
    ensures id { IfOk result (λ id. id ≡ pos (length document.old.nodes + 1)) }
    ensures added { OnOk result (document.new
        ≡ with_node document.old (scalar_node (option_copied tag.entry) value.now style)) }
    ensures room { OnOk result (length document.old.nodes < most_nodes) }
    ensures utf8_tag { OnOk result (IfSome (option_copied tag.entry) IsUtf8) }
    ensures utf8_value { OnOk result (IsUtf8 value.now) }
    ensures too_many { IsErrOf result yaml_refusal_t.TooManyNodes ↔ (length document.old.nodes ≡ most_nodes) }
    ensures not_utf8 { IsErrOf result yaml_refusal_t.NotUtf8 ↔ ((length document.old.nodes < most_nodes)
        × ¬ (IfSome (option_copied tag.entry) IsUtf8 × IsUtf8 value.now)) }
    ensures memory { IsErrOf result yaml_refusal_t.Memory → (length document.old.nodes < most_nodes)
        × IfSome (option_copied tag.entry) IsUtf8 × IsUtf8 value.now }
    ensures unchanged { OnErr result (document.new ≡ document.old) }

    // For the next call: the type of the new id, and that each other id keeps its type.
    ensures count { OnOk result (length document.new.nodes ≡ length document.old.nodes + 1) }
    ensures type_is { IfOk result (λ id. type_at document.new.nodes id ≡ yaml_node_type_t.YAML_SCALAR_NODE) }
    ensures types_kept { KeepsTypes document.old.nodes document.new.nodes }
{
    has_room(document)?;
    let tag = checked_tag(tag, "tag:yaml.org,2002:str")?;
    let value = checked(value)?;
    let alloc = *document.nodes.allocator();
    let scalar = unnamed_yaml_node_t_data_scalar {
        value: String::from_str(alloc, value)?,
        style,
    };
    let node = new_node(alloc, tag, unnamed_yaml_node_t_data::Scalar(scalar))?;
    push_node(document, node)
}

/// Appends a sequence without items, and returns its id, which is the new number of nodes. Its marks are
/// zero, and without a tag its tag is `tag:yaml.org,2002:seq`.
///
/// # Errors
///
/// `TooManyNodes` if the document has 2147483647 nodes, else `NotUtf8` if the tag isn't UTF-8, else `Memory`
/// if an allocation fails; the document is then as it was.
///
/// libyaml: `yaml_document_add_sequence`.
pub fn yaml_document_add_sequence(
    document: &mut yaml_document_t,
    tag: Option<&[u8]>,
    style: yaml_sequence_style_t,
) -> Result<i32, yaml_refusal_t>
    ensures id { IfOk result (λ id. id ≡ pos (length document.old.nodes + 1)) }
    ensures added { OnOk result (document.new
        ≡ with_node document.old (sequence_node (option_copied tag.entry) style)) }
    ensures room { OnOk result (length document.old.nodes < most_nodes) }
    ensures utf8_tag { OnOk result (IfSome (option_copied tag.entry) IsUtf8) }
    ensures too_many { IsErrOf result yaml_refusal_t.TooManyNodes ↔ (length document.old.nodes ≡ most_nodes) }
    ensures not_utf8 { IsErrOf result yaml_refusal_t.NotUtf8 ↔ ((length document.old.nodes < most_nodes)
        × ¬ IfSome (option_copied tag.entry) IsUtf8) }
    ensures memory { IsErrOf result yaml_refusal_t.Memory → (length document.old.nodes < most_nodes)
        × IfSome (option_copied tag.entry) IsUtf8 }
    ensures unchanged { OnErr result (document.new ≡ document.old) }

    // For the next call: the type of the new id, and that each other id keeps its type.
    ensures count { OnOk result (length document.new.nodes ≡ length document.old.nodes + 1) }
    ensures type_is { IfOk result (λ id. type_at document.new.nodes id
        ≡ yaml_node_type_t.YAML_SEQUENCE_NODE) }
    ensures types_kept { KeepsTypes document.old.nodes document.new.nodes }
{
    has_room(document)?;
    let tag = checked_tag(tag, "tag:yaml.org,2002:seq")?;
    let alloc = *document.nodes.allocator();
    let sequence = unnamed_yaml_node_t_data_sequence {
        items: Vec::new(alloc),
        style,
    };
    let node = new_node(alloc, tag, unnamed_yaml_node_t_data::Sequence(sequence))?;
    push_node(document, node)
}

/// Appends a mapping without pairs, and returns its id, which is the new number of nodes. Its marks are zero,
/// and without a tag its tag is `tag:yaml.org,2002:map`.
///
/// # Errors
///
/// `TooManyNodes` if the document has 2147483647 nodes, else `NotUtf8` if the tag isn't UTF-8, else `Memory`
/// if an allocation fails; the document is then as it was.
///
/// libyaml: `yaml_document_add_mapping`.
pub fn yaml_document_add_mapping(
    document: &mut yaml_document_t,
    tag: Option<&[u8]>,
    style: yaml_mapping_style_t,
) -> Result<i32, yaml_refusal_t>
    ensures id { IfOk result (λ id. id ≡ pos (length document.old.nodes + 1)) }
    ensures added { OnOk result (document.new
        ≡ with_node document.old (mapping_node (option_copied tag.entry) style)) }
    ensures room { OnOk result (length document.old.nodes < most_nodes) }
    ensures utf8_tag { OnOk result (IfSome (option_copied tag.entry) IsUtf8) }
    ensures too_many { IsErrOf result yaml_refusal_t.TooManyNodes ↔ (length document.old.nodes ≡ most_nodes) }
    ensures not_utf8 { IsErrOf result yaml_refusal_t.NotUtf8 ↔ ((length document.old.nodes < most_nodes)
        × ¬ IfSome (option_copied tag.entry) IsUtf8) }
    ensures memory { IsErrOf result yaml_refusal_t.Memory → (length document.old.nodes < most_nodes)
        × IfSome (option_copied tag.entry) IsUtf8 }
    ensures unchanged { OnErr result (document.new ≡ document.old) }

    // For the next call: the type of the new id, and that each other id keeps its type.
    ensures count { OnOk result (length document.new.nodes ≡ length document.old.nodes + 1) }
    ensures type_is { IfOk result (λ id. type_at document.new.nodes id ≡ yaml_node_type_t.YAML_MAPPING_NODE) }
    ensures types_kept { KeepsTypes document.old.nodes document.new.nodes }
{
    has_room(document)?;
    let tag = checked_tag(tag, "tag:yaml.org,2002:map")?;
    let alloc = *document.nodes.allocator();
    let mapping = unnamed_yaml_node_t_data_mapping {
        pairs: Vec::new(alloc),
        style,
    };
    let node = new_node(alloc, tag, unnamed_yaml_node_t_data::Mapping(mapping))?;
    push_node(document, node)
}
