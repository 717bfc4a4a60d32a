//! The expanded size of a document, with the errors of loads.
ghost use Rattle.std.specs.Prelude.{ℕ, ℤ, ◌<◌, ◌≤◌, ◌≡◌, ◌≢◌, ◌⊎◌, [], pos, Ok, IfOk};
ghost use Rattle.libyaml_types.specs.Fault.{fault_of, memory_fault};
ghost use Rattle.yaml_expansion.specs.Expansion.{HasExpandedSize, IsCyclic, IsCyclicAt, ids_at};
ghost use Rattle.yaml_expansion.specs.ExpansionFaults.{ReturnsFault, cyclic, node_start_at, too_large};

use crate::error::yaml_expansion_error_t;
use crate::measure::expanded_size;
use libyaml_documents::{yaml_document_get_node, yaml_document_t};
use libyaml_types::{
    MEMORY_FAULT, NO_FAULT, ZERO_MARK, yaml_error_type_t, yaml_mark_t, yaml_parser_t_prefix,
};
use std::alloc::Global;

/// Returns how many nodes the document has with its aliases written out, as `expanded_size` does, or a
/// composer error, which `?` takes where it takes the errors of loads.
///
/// # Errors
///
/// - "found an alias within the node that it names", where one comes from the root to a collection that
///   contains itself. The mark is where such a collection starts.
/// - "found too many nodes, with aliases written out", where the tree has an end, and more than `max` nodes.
///   The mark is where the root starts.
/// - Out of memory, if an allocation failed: memory is taken only if the root holds an id.
pub fn bounded_size(
    alloc: Global,
    document: &yaml_document_t,
    max: u64,
) -> Result<u64, yaml_parser_t_prefix>
    ensures size { IfOk result (λ size. HasExpandedSize document.now.nodes size × (size ≤ max)) }
    ensures where_small { (size : ℕ) → HasExpandedSize document.now.nodes size → size ≤ max
        → (result ≡ Ok size) ⊎ ReturnsFault result memory_fault }
    ensures where_large { (size : ℕ) → HasExpandedSize document.now.nodes size → max < size
        → ReturnsFault result (too_large document.now.nodes) ⊎ ReturnsFault result memory_fault }
    ensures where_cyclic { IsCyclic document.now.nodes
        → ((id : ℤ) × IsCyclicAt document.now.nodes id × ReturnsFault result (cyclic document.now.nodes id))
        ⊎ ReturnsFault result memory_fault }
    ensures memory { ReturnsFault result memory_fault → ids_at document.now.nodes (pos 1) ≢ [] }
{
    match expanded_size(alloc, document, max) {
        Ok(size) => Ok(size),
        Err(yaml_expansion_error_t::TooLarge) => Err(too_large(document)),
        Err(yaml_expansion_error_t::Cyclic(id)) => Err(cyclic(document, id)),
        Err(yaml_expansion_error_t::Memory) => Err(MEMORY_FAULT),
    }
}

/// Returns the error of a tree that is too large.
fn too_large(document: &yaml_document_t) -> yaml_parser_t_prefix
    ensures { fault_of result ≡ too_large document.now.nodes }
{
    yaml_parser_t_prefix {
        error: yaml_error_type_t::YAML_COMPOSER_ERROR,
        problem: Some("found too many nodes, with aliases written out"),
        problem_mark: node_start_at(document, 1),
        ..NO_FAULT
    }
}

/// Returns the error of a node that contains itself.
fn cyclic(document: &yaml_document_t, id: i32) -> yaml_parser_t_prefix
    ensures { fault_of result ≡ cyclic document.now.nodes id }
{
    yaml_parser_t_prefix {
        error: yaml_error_type_t::YAML_COMPOSER_ERROR,
        problem: Some("found an alias within the node that it names"),
        problem_mark: node_start_at(document, id),
        ..NO_FAULT
    }
}

/// Returns where the node of this id starts.
fn node_start_at(document: &yaml_document_t, id: i32) -> yaml_mark_t
    ensures { result ≡ node_start_at document.now.nodes id }
{
    match yaml_document_get_node(document, id) {
        Some(node) => node.start_mark,
        None => ZERO_MARK,
    }
}
