//! The ids that a node holds, by their numbers.
ghost use Rattle.std.specs.Prelude.{◌≡◌, ◌+◌, ◌^◌, ◌<◌, ◌≤ℤ◌, pos, suc, Some, IfSome, IfNone, OnSome};
ghost use Rattle.std.specs.Prelude.{if◌then◌else◌, length, slice_get};
ghost use Rattle.libyaml_documents.specs.Nodes.{EveryIdNamesANode, ids_of, ids_of_pairs};
ghost use Rattle.yaml_expansion.specs.Expansion.{ids_at};

use libyaml_documents::{unnamed_yaml_node_t_data, yaml_node_pair_t, yaml_node_t};

/// Returns the place of the node that the id of this number, from 0, names among those that the node at a
/// place holds, or `None` where it holds no more.
#[tactic(auto, using(crate::proofs::Moves::id_names))]
pub(crate) fn child_at(nodes: &[yaml_node_t], place: usize, number: usize) -> Option<usize>
    requires place { place < length nodes.now }
    requires ids { EveryIdNamesANode nodes.now }
    ensures child { IfSome result (λ child.
        slice_get (ids_at nodes.now (pos (suc place))) number ≡ Some (pos (suc child))) }
    ensures none { IfNone result (slice_get (ids_at nodes.now (pos (suc place))) number ≡ None) }
    ensures inside { IfSome result (λ child. child < length nodes.now) }
    ensures room { OnSome result (number + 1 < 2 ^ 64) }
{
    let id = id_at(nodes, place, number)?;
    Some(place_of(id))
}

/// Returns the place of the node of this id.
fn place_of(id: i32) -> usize
    requires { pos 1 ≤ℤ id }
    ensures { id ≡ pos (suc result) }
{
    id as usize - 1
}

/// Returns the id of this number among those that the node at a place holds.
#[tactic(auto, using(crate::proofs::Moves::ids_here))]
fn id_at(nodes: &[yaml_node_t], place: usize, number: usize) -> Option<i32>
    requires { place < length nodes.now }
    ensures id { result ≡ slice_get (ids_at nodes.now (pos (suc place))) number }
    ensures room { OnSome result (number + 1 < 2 ^ 64) }
{
    child_of(&nodes[place], number)
}

/// Returns the id of this number, from 0, among those that the node holds.
#[tactic(auto, using(crate::proofs::Ids::ids_of_node))]
fn child_of(node: &yaml_node_t, number: usize) -> Option<i32>
    ensures id { result ≡ slice_get (ids_of node.now.content) number }
    ensures room { OnSome result (number + 1 < 2 ^ 64) }
{
    match &node.content {
        unnamed_yaml_node_t_data::Scalar(_) => None,
        unnamed_yaml_node_t_data::Sequence(sequence) => item_in(sequence.items.as_slice(), number),
        unnamed_yaml_node_t_data::Mapping(mapping) => id_in(mapping.pairs.as_slice(), number),
    }
}

/// Returns the item of this number.
fn item_in(items: &[i32], number: usize) -> Option<i32>
    ensures id { result ≡ slice_get items.now number }
    ensures room { OnSome result (number + 1 < 2 ^ 64) }
{
    if number < items.len() {
        Some(items[number])
    } else {
        None
    }
}

/// Returns the id of this number, from 0, among the keys and values of pairs.
#[tactic(auto, using(crate::proofs::Ids::past_pairs, crate::proofs::Ids::within_pairs))]
fn id_in(pairs: &[yaml_node_pair_t], number: usize) -> Option<i32>
    requires { length pairs.now < 2 ^ 63 }
    ensures id { result ≡ slice_get (ids_of_pairs pairs.now) number }
    ensures room { OnSome result (number + 1 < 2 ^ 64) }
{
    let pair = pair_in(pairs, number / 2)?;
    Some(half_of(pair, number % 2 == 0))
}

/// Returns the pair of this number.
fn pair_in(pairs: &[yaml_node_pair_t], number: usize) -> Option<yaml_node_pair_t>
    ensures pair { result ≡ slice_get pairs.now number }
    ensures found { OnSome result (number < length pairs.now) }
{
    pairs.get(number).copied()
}

/// Returns the key or the value of a pair.
fn half_of(pair: yaml_node_pair_t, is_key: bool) -> i32
    ensures { result ≡ (if is_key then pair.key else pair.value) }
{
    if is_key { pair.key } else { pair.value }
}
