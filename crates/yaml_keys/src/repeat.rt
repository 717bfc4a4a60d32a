//! The first number that a list repeats.
ghost use Rattle.std.specs.Prelude.{◌<◌, ◌≡◌, IfOk, All, length, map};
ghost use Rattle.libyaml_documents.specs.Nodes.{IsIdUpTo};
ghost use Rattle.yaml_keys.specs.Repeats.{IsFirstRepeat, class_at};

use libyaml_documents::yaml_node_pair_t;
use std::alloc::{AllocError, Global};
use std::collections::BTreeMap;

/// Returns the indices of the first two pairs whose keys are of one class, by the second of them.
pub(crate) fn first_repeat(
    alloc: Global,
    classes: &[usize],
    pairs: &[yaml_node_pair_t],
) -> Result<Option<(usize, usize)>, AllocError>
    requires { All (λ pair. IsIdUpTo (length classes.now) pair.key) pairs.now }
    ensures { IfOk result (IsFirstRepeat (map (λ pair. class_at classes.now pair.key) pairs.now)) }
{
    let mut seen: BTreeMap<usize, usize> = BTreeMap::new(alloc);
    for (second, pair) in pairs.iter().enumerate() {
        let class = class_of_key(classes, pair);
        if let Some(first) = seen.get(&class) {
            return Ok(Some((*first, second)));
        }
        seen.insert(class, second)?;
    }
    Ok(None)
}

/// Returns the class of the node that is the key of this pair.
fn class_of_key(classes: &[usize], pair: &yaml_node_pair_t) -> usize
    requires { IsIdUpTo (length classes.now) pair.now.key }
    ensures { result ≡ class_at classes.now pair.now.key }
{
    classes[pair.key as usize - 1]
}
