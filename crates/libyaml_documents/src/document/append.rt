//! The calls that append a child to a collection.

ghost use Rattle.std.specs.Prelude.{◌≡◌, OnOk, OnErr, length};
ghost use Rattle.libyaml_documents.specs.Documents.{with_changed_node};
ghost use Rattle.libyaml_documents.specs.Nodes.{IsIdUpTo, type_at, KeepsTypes, with_item, with_pair};

use super::{place_of, yaml_document_t};
use crate::items::yaml_node_item_t;
use crate::pairs::yaml_node_pair_t;
use libyaml_types::{yaml_node_type_t, yaml_refusal_t};

/// Appends an item to a sequence.
///
/// Both ids must name nodes of this document. `sequence` must be the id of a sequence: the node's `type_()`
/// tells.
///
/// # Errors
///
/// `Memory` if an allocation fails; the document is then as it was.
///
/// libyaml: `yaml_document_append_sequence_item`.
#[inline(always)]
pub fn yaml_document_append_sequence_item(
    document: &mut yaml_document_t,
    sequence: i32,
    item: yaml_node_item_t,
) -> Result<(), yaml_refusal_t>
    requires target { type_at document.old.nodes sequence ≡ yaml_node_type_t.YAML_SEQUENCE_NODE }
    requires item { IsIdUpTo (length document.old.nodes) item }
    ensures ok { OnOk result (document.new ≡ with_changed_node document.old sequence (with_item item)) }
    ensures refused { OnErr result (result ≡ Err yaml_refusal_t.Memory) }
    ensures unchanged { OnErr result (document.new ≡ document.old) }

    // For the next call: each id keeps its type.
    ensures count { length document.new.nodes ≡ length document.old.nodes }
    ensures types_kept { KeepsTypes document.old.nodes document.new.nodes }
{
    let node = &mut document.nodes[place_of(sequence)];
    node.push_item(item)?;
    Ok(())
}

/// Appends a pair to a mapping.
///
/// All ids must name nodes of this document. `mapping` must be the id of a mapping: the node's `type_()`
/// tells.
///
/// # Errors
///
/// `Memory` if an allocation fails; the document is then as it was.
///
/// libyaml: `yaml_document_append_mapping_pair`.
#[inline(always)]
pub fn yaml_document_append_mapping_pair(
    document: &mut yaml_document_t,
    mapping: i32,
    key: i32,
    value: i32,
) -> Result<(), yaml_refusal_t>
    requires target { type_at document.old.nodes mapping ≡ yaml_node_type_t.YAML_MAPPING_NODE }
    requires key { IsIdUpTo (length document.old.nodes) key }
    requires value { IsIdUpTo (length document.old.nodes) value }
    ensures ok { OnOk result (document.new ≡ with_changed_node document.old mapping (with_pair key value)) }
    ensures refused { OnErr result (result ≡ Err yaml_refusal_t.Memory) }
    ensures unchanged { OnErr result (document.new ≡ document.old) }

    // For the next call: each id keeps its type.
    ensures count { length document.new.nodes ≡ length document.old.nodes }
    ensures types_kept { KeepsTypes document.old.nodes document.new.nodes }
{
    let node = &mut document.nodes[place_of(mapping)];
    node.push_pair(yaml_node_pair_t { key, value })?;
    Ok(())
}
