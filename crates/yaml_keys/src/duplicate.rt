//! The first duplicate key of a document.
ghost use Rattle.std.specs.Prelude.{◌<◌, ◌≡◌, ◌↔◌, pos, suc, IfOk, IsTrue, OnErr};
ghost use Rattle.libyaml_documents.specs.Documents.{most_nodes};
ghost use Rattle.yaml_keys.specs.Keys.{HasTwoPairs, IsFirstDuplicate};

use crate::classes::key_classes;
use crate::repeat::first_repeat;
use libyaml_documents::{yaml_document_t, yaml_node_t};
use std::alloc::{AllocError, Global};

/// Two pairs of one mapping that have the same key.
#[derive(Copy, Clone, PartialEq, Eq, Debug)]
pub struct yaml_duplicate_key_t {
    /// The id of the mapping.
    pub mapping: i32,
    /// The index of the first pair of the mapping that has the key, from 0.
    pub first: usize,
    /// The index of the second.
    pub second: usize,
}

/// Returns the first pair that repeats a key of its mapping, with the first pair of that key; or `None`, if
/// the document has no duplicate key. The mapping with the smallest id comes first, and in it the pair with
/// the smallest index.
///
/// Two keys are the same if they are the same node, or scalars with the same text, the same tag and both
/// plain or both not. A document has the tag of strings for each scalar without one, so `1` and `!!str 1` are
/// the same, though a schema may tell them apart; of two written with a tag, or both without, none can. A
/// schema may take further keys for the same, such as `1` and `0x1`.
///
/// Each text is compared with as many others as the number of scalars has binary digits, however many
/// aliases name it.
///
/// # Errors
///
/// `AllocError` if an allocation failed: memory is taken only where a mapping has two pairs.
pub fn duplicate_key(
    alloc: Global,
    document: &yaml_document_t,
) -> Result<Option<yaml_duplicate_key_t>, AllocError>
    ensures first { IfOk result (IsFirstDuplicate document.now.nodes) }
    ensures memory { OnErr result (HasTwoPairs document.now.nodes) }
{
    let nodes = document.nodes();
    if !has_two_pairs(nodes) {
        return Ok(None);
    }
    let classes = key_classes(alloc, nodes)?;
    for (place, node) in nodes.iter().enumerate() {
        if let Some((first, second)) = first_repeat(alloc, classes.as_slice(), node.pairs())? {
            return Ok(Some(duplicate_in(place, first, second)));
        }
    }
    Ok(None)
}

/// Returns whether a mapping has two pairs.
fn has_two_pairs(nodes: &[yaml_node_t]) -> bool
    ensures { IsTrue result ↔ HasTwoPairs nodes.now }
{
    for node in nodes {
        if node.pairs().len() > 1 {
            return true;
        }
    }
    false
}

/// Returns a duplicate of the mapping at this place: ids count from 1, places from 0.
fn duplicate_in(place: usize, first: usize, second: usize) -> yaml_duplicate_key_t
    requires { place < most_nodes }
    ensures mapping { result.mapping ≡ pos (suc place) }
    ensures pairs { (result.first ≡ first) × (result.second ≡ second) }
{
    yaml_duplicate_key_t {
        mapping: (place + 1) as i32,
        first,
        second,
    }
}
