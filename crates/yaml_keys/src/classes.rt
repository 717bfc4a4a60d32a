//! Which nodes are the same key.
ghost use Rattle.std.specs.Prelude.{◌<◌, ◌+◌, ◌≡◌, IfOk, OnOk, length};
ghost use Rattle.std.specs.Option.{option_map};
ghost use Rattle.yaml_keys.specs.Keys.{AreClasses, IsFirstSame, scalar_key};
ghost use Rattle.yaml_keys.specs.Firsts.{HasFirsts, read};

use libyaml_documents::{unnamed_yaml_node_t_data, yaml_node_t};
use libyaml_types::yaml_scalar_style_t;
use std::alloc::{AllocError, Global};
use std::collections::BTreeMap;

/// Returns for each node the place of the first that is the same key.
pub(crate) fn key_classes(alloc: Global, nodes: &[yaml_node_t]) -> Result<Vec<usize>, AllocError>
    ensures { IfOk result (λ classes. AreClasses nodes.now classes.items) }
{
    let mut firsts = BTreeMap::new(alloc);
    let mut classes = Vec::new(alloc);
    for place in 0..nodes.len() {
        let class = class_of(&mut firsts, nodes, place)?;
        classes.push(class)?;
    }
    Ok(classes)
}

/// Returns the place of the first node that is the same key as the one at this place, by a map from the
/// scalars before it to their first places, which then has this one too.
fn class_of<'a>(
    firsts: &mut BTreeMap<(bool, &'a str, &'a str), usize>,
    nodes: &'a [yaml_node_t],
    place: usize,
) -> Result<usize, AllocError>
    requires place { place < length nodes.now }
    requires firsts { HasFirsts nodes.now place firsts.old }
    ensures class { IfOk result (IsFirstSame nodes.now place) }
    ensures firsts { OnOk result (HasFirsts nodes.now (place + 1) firsts.new) }
{
    let Some(key) = scalar_of(&nodes[place]) else {
        return Ok(place);
    };
    if let Some(first) = firsts.get(&key) {
        return Ok(*first);
    }
    firsts.insert(key, place)?;
    Ok(place)
}

/// Returns what tells a scalar apart as a key: whether it is plain, its tag and its text. Of a collection it
/// returns `None`.
fn scalar_of(node: &yaml_node_t) -> Option<(bool, &str, &str)>
    ensures { option_map read result ≡ scalar_key node.now }
{
    match &node.content {
        unnamed_yaml_node_t_data::Scalar(scalar) => {
            let is_plain = scalar.style == yaml_scalar_style_t::YAML_PLAIN_SCALAR_STYLE;
            Some((is_plain, node.tag.as_str(), scalar.value.as_str()))
        }
        _ => None,
    }
}
