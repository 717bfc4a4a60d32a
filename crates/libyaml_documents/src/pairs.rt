//! The pairs of a mapping.

/// A pair of a mapping: the ids of the key's node and of the value's node.
///
/// libyaml: `yaml_node_pair_t`.
#[derive(Copy, Clone, PartialEq, Eq, Debug)]
pub struct yaml_node_pair_t {
    /// The id of the key's node.
    pub key: i32,
    /// The id of the value's node.
    pub value: i32,
}
