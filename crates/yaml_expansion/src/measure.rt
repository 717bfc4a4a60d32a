//! The expanded size of a document.
ghost use Rattle.std.specs.Prelude.{ℕ, ℤ, ◌<◌, ◌≤◌, ◌≡◌, ◌≢◌, ◌⊎◌, ◌↔◌, [], pos, suc, length};
ghost use Rattle.std.specs.Prelude.{Ok, IfOk, IsErrOf, IsTrue};
ghost use Rattle.libyaml_documents.specs.Documents.{most_nodes};
ghost use Rattle.libyaml_documents.specs.Nodes.{EveryIdNamesANode};
ghost use Rattle.yaml_expansion.specs.Expansion.{HasExpandedSize, IsCyclic, IsCyclicAt, ids_at};

use crate::children::child_at;
use crate::error::yaml_expansion_error_t;
use crate::size::Size;
use crate::walk::{Step, Walk};
use libyaml_documents::{yaml_document_t, yaml_node_t};
use std::alloc::Global;

/// Returns how many nodes the document has with its aliases written out: the nodes of the tree that comes of
/// copying a node at each place that names it. A document without nodes has none.
///
/// Each node, item and pair of the document is looked at once or twice, and each node takes memory once,
/// however large the tree is.
///
/// # Errors
///
/// - `Cyclic` where one comes from the root to a collection that contains itself, through others or at once:
///   the tree has no end. It has the id of such a collection.
/// - `TooLarge` where the tree has an end, and more than `max` nodes.
/// - `Memory` where an allocation fails: memory is taken only if the root holds an id.
pub fn expanded_size(
    alloc: Global,
    document: &yaml_document_t,
    max: u64,
) -> Result<u64, yaml_expansion_error_t>
    ensures size { IfOk result (λ size. HasExpandedSize document.now.nodes size × (size ≤ max)) }
    ensures too_large { IsErrOf result yaml_expansion_error_t.TooLarge
        → (size : ℕ) × HasExpandedSize document.now.nodes size × (max < size) }
    ensures cyclic { (id : ℤ) → IsErrOf result (yaml_expansion_error_t.Cyclic id)
        → IsCyclicAt document.now.nodes id }

    // And each of these is returned where it is right, unless memory runs out.
    ensures where_small { (size : ℕ) → HasExpandedSize document.now.nodes size → size ≤ max
        → (result ≡ Ok size) ⊎ IsErrOf result yaml_expansion_error_t.Memory }
    ensures where_large { (size : ℕ) → HasExpandedSize document.now.nodes size → max < size
        → IsErrOf result yaml_expansion_error_t.TooLarge ⊎ IsErrOf result yaml_expansion_error_t.Memory }
    ensures where_cyclic { IsCyclic document.now.nodes
        → ((id : ℤ) × IsErrOf result (yaml_expansion_error_t.Cyclic id))
        ⊎ IsErrOf result yaml_expansion_error_t.Memory }
    ensures memory { IsErrOf result yaml_expansion_error_t.Memory
        → ids_at document.now.nodes (pos 1) ≢ [] }
{
    measure(alloc, document, max)
}

/// Returns the same.
fn measure(
    alloc: Global,
    document: &yaml_document_t,
    max: u64,
) -> Result<u64, yaml_expansion_error_t>
    ensures size { IfOk result (λ size. HasExpandedSize document.now.nodes size × (size ≤ max)) }
    ensures too_large { IsErrOf result yaml_expansion_error_t.TooLarge
        → (size : ℕ) × HasExpandedSize document.now.nodes size × (max < size) }
    ensures cyclic { (id : ℤ) → IsErrOf result (yaml_expansion_error_t.Cyclic id)
        → IsCyclicAt document.now.nodes id }
    ensures memory { IsErrOf result yaml_expansion_error_t.Memory
        → ids_at document.now.nodes (pos 1) ≢ [] }
{
    let nodes = document.nodes();
    if nodes.is_empty() {
        return Ok(0);
    }
    if is_alone(nodes) {
        return if max < 1 {
            Err(yaml_expansion_error_t::TooLarge)
        } else {
            Ok(1)
        };
    }
    let mut walk = Walk::new(alloc, nodes, max)?;
    loop {
        match walk.step(nodes)? {
            Step::Moves => {}
            Step::Ends(Size::Within(size)) => return Ok(size),
            Step::Ends(Size::TooLarge) => return Err(yaml_expansion_error_t::TooLarge),
            Step::Meets(place) => return Err(cyclic_at(place)),
        }
    }
}

/// Returns whether the root holds no id.
fn is_alone(nodes: &[yaml_node_t]) -> bool
    requires root { 0 < length nodes.now }
    requires ids { EveryIdNamesANode nodes.now }
    ensures { IsTrue result ↔ (ids_at nodes.now (pos 1) ≡ []) }
{
    child_at(nodes, 0, 0).is_none()
}

/// Returns the error where the node at this place contains itself: ids count from 1, places from 0.
fn cyclic_at(place: usize) -> yaml_expansion_error_t
    requires { place < most_nodes }
    ensures { result ≡ yaml_expansion_error_t.Cyclic (pos (suc place)) }
{
    yaml_expansion_error_t::Cyclic((place + 1) as i32)
}
