//! One step: from a node to its text, an item or a value.
ghost use Rattle.std.specs.Prelude.{◌≡◌, IsSome, IfSome, length, ◌↔◌};
ghost use Rattle.std.specs.Option.{option_copied};
ghost use Rattle.libyaml_documents.specs.Nodes.{EveryIdNamesANode, IsIdUpTo, node_at};
ghost use Rattle.yaml_path.specs.Paths.{node_text_of, item_at, value_at, is_scalar_at};

use libyaml_documents::{
    unnamed_yaml_node_t_data, yaml_document_get_node, yaml_document_t, yaml_node_t,
};

/// Returns the node of this id, or `None` if no node has it. Ids count from 1.
///
/// libyaml: `yaml_document_get_node`.
pub fn node_of(document: &yaml_document_t, id: i32) -> Option<&yaml_node_t>
    ensures found { IsSome result ↔ IsIdUpTo (length document.now.nodes) id }
    ensures node { option_copied result ≡ node_at document.now.nodes id }
    ensures ids_in_range { EveryIdNamesANode document.now.nodes }
{
    yaml_document_get_node(document, id)
}

/// Returns the text of a scalar, or `None` if the node is a sequence or a mapping.
pub fn as_str(node: &yaml_node_t) -> Option<&str>
    ensures text { option_copied result ≡ node_text_of node.now.content }
{
    match &node.content {
        unnamed_yaml_node_t_data::Scalar(scalar) => Some(scalar.value.as_str()),
        _ => None,
    }
}

/// Returns the id of the item at this index, from 0, or `None` if the id names no sequence, or one with no
/// such item.
pub fn item_at(document: &yaml_document_t, id: i32, index: usize) -> Option<i32>
    ensures item { result ≡ item_at document.now.nodes id index }
    ensures in_document { IfSome result (IsIdUpTo (length document.now.nodes)) }
{
    found_item(document, id, index)
}

/// Returns the same as `item_at`, whose clause `in_document` is proved apart from this body.
fn found_item(document: &yaml_document_t, id: i32, index: usize) -> Option<i32>
    ensures item { result ≡ item_at document.now.nodes id index }
    ensures ids_in_range { EveryIdNamesANode document.now.nodes }
{
    let node = node_of(document, id)?;
    node.items().get(index).copied()
}

/// Returns the id of the value of the first pair whose key is a scalar of exactly this text, or `None` if the
/// id names no mapping, or one with no such key.
pub fn value_at(document: &yaml_document_t, id: i32, key: &str) -> Option<i32>
    ensures value { result ≡ value_at document.now.nodes id key.now }
    ensures in_document { IfSome result (IsIdUpTo (length document.now.nodes)) }
{
    found_value(document, id, key)
}

/// Returns the same as `value_at`, whose clause `in_document` is proved apart from this body.
fn found_value(document: &yaml_document_t, id: i32, key: &str) -> Option<i32>
    ensures value { result ≡ value_at document.now.nodes id key.now }
    ensures ids_in_range { EveryIdNamesANode document.now.nodes }
{
    let node = node_of(document, id)?;
    let pairs = node.pairs();
    for pair in pairs {
        if is_scalar(document, pair.key, key) {
            return Some(pair.value);
        }
    }
    None
}

/// Returns whether the node of this id is a scalar of exactly this text.
fn is_scalar(document: &yaml_document_t, id: i32, text: &str) -> bool
    ensures { result ≡ is_scalar_at document.now.nodes text.now id }
{
    match node_of(document, id) {
        Some(node) => as_str(node) == Some(text),
        None => false,
    }
}
