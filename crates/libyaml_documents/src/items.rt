//! The items of a sequence.

/// An item of a sequence: the id of a node.
///
/// libyaml: `yaml_node_item_t`.
pub type yaml_node_item_t = i32;
