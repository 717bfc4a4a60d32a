//! Where an anchored node stands.

ghost use Rattle.std.specs.Prelude.{pos, ◌≤ℤ◌};

use libyaml_types::yaml_mark_t;

/// The node that has an anchor, and where it starts.
#[derive(Copy, Clone)]
pub(crate) struct AnchoredNode {
    /// The id of the node. Ids count from 1.
    pub node: i32,
    pub mark: yaml_mark_t,
    ghost positive: { pos 1 ≤ℤ node },
}
