//! What a call reads and writes: structs of plain numbers, laid out as C lays them out.

/// A collection that is open.
///
/// libyaml: an entry of `loader_ctx`.
#[repr(C)]
#[derive(Copy, Clone)]
pub struct open_t {
    /// The id of its node.
    pub node: i32,
    /// Of a mapping, the id of the key that waits for its value; 0 if none does.
    pub key: i32,
    /// How many items it has, or how many pairs have begun.
    pub children: u32,
    /// Not 0 if it is a mapping.
    pub is_mapping: u32,
}

/// Where a call puts a node or an alias. What a deed of its kind has no use for is 0.
#[repr(C)]
#[derive(Copy, Clone)]
pub struct place_t {
    /// The id of the node that comes after the others; 0 if none does.
    pub node: i32,
    /// The id that goes to the parent: that of this node, or of the node that an alias names.
    pub child: i32,
    /// The id of the collection that it goes to, or that ends; 0 if none is open.
    pub parent: i32,
    /// The key whose value the child is.
    pub key: i32,
}
