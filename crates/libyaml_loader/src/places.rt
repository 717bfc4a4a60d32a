//! Where an event belongs in its document.
ghost use Rattle.std.specs.Prelude.{◌≡◌, ℤ, List, length};
ghost use Rattle.libyaml_composer.specs.declared.records.open_t.{open_t};
ghost use Rattle.libyaml_loader.specs.composed.Places.{index_by, innermost_of, place_by};

use libyaml_composer::{Deed, open_t, place_t};

/// What a node, or an alias of one, is to the node that holds it.
#[derive(Copy, Clone, PartialEq, Eq, Debug)]
pub enum yaml_role_t {
    /// The root of its document.
    Root,
    /// An item of a sequence.
    Item,
    /// The key of a pair of a mapping.
    Key,
    /// The value of a pair of a mapping.
    Value,
}

/// Where a node, or an alias of one, belongs in the document that a load gives.
#[derive(Copy, Clone, PartialEq, Eq, Debug)]
pub struct yaml_place_t {
    /// The id of the node; of an alias that of the node that it names.
    pub id: i32,
    /// The id of the node that holds it; 0 if it is the root.
    pub parent: i32,
    /// What it is to that node.
    pub role: yaml_role_t,
    /// The index of the item or of the pair, from 0; 0 if it is the root.
    pub index: u32,
    /// How many collections are around it.
    pub depth: usize,
}

/// Returns the index of an item, a key or a value, where this is the innermost open collection.
fn index_by(role: yaml_role_t, innermost: Option<open_t>) -> u32
    ensures { result ≡ index_by role innermost }
{
    let Some(open) = innermost else {
        return 0;
    };
    match role {
        yaml_role_t::Root => 0,
        yaml_role_t::Item | yaml_role_t::Key => open.children,
        yaml_role_t::Value => open.children.saturating_sub(1),
    }
}

/// Returns the place of an event with this deed, where so many collections were open before it, and this was
/// the innermost.
pub(crate) fn place_by(
    deed: Deed,
    place: place_t,
    innermost: Option<open_t>,
    depth: usize,
) -> Option<yaml_place_t>
    ensures { (stack : List open_t) → innermost ≡ innermost_of stack → depth ≡ length stack
        → result ≡ place_by deed place stack }
{
    let role = match deed {
        Deed::Root => yaml_role_t::Root,
        Deed::Item => yaml_role_t::Item,
        Deed::Key => yaml_role_t::Key,
        Deed::Value => yaml_role_t::Value,
        _ => return None,
    };
    Some(yaml_place_t {
        id: place.child,
        parent: place.parent,
        role,
        index: index_by(role, innermost),
        depth,
    })
}
