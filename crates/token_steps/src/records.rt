//! What a call reads and writes: structs of plain numbers, laid out as C lays them out.
use libyaml_types::yaml_mark_t;

/// Where a token begins and ends.
#[repr(C)]
#[derive(Copy, Clone)]
pub struct step_span_t {
    pub start_mark: yaml_mark_t,
    pub end_mark: yaml_mark_t,
}

/// An event without its texts, which are those of tokens. A flag is 1 or 0.
///
/// libyaml: `yaml_event_t`.
#[repr(C)]
#[derive(Copy, Clone)]
pub struct step_event_t {
    /// The number of its `yaml_event_type_t`, 1 to 10.
    pub kind: u8,
    /// The node has an anchor.
    pub has_anchor: u8,
    /// The node has a tag.
    pub has_tag: u8,
    /// A document's start or end has no token of its own; the tag of a collection, or of a scalar that is
    /// written plain, may be left out.
    pub implicit: u8,
    /// The tag of a scalar that isn't written plain may be left out.
    pub quoted_implicit: u8,
    /// The collection is a flow collection.
    pub is_flow: u8,
    pub start_mark: yaml_mark_t,
    pub end_mark: yaml_mark_t,
}

/// An error of the parser, without its words. A mark that it doesn't have is zero.
#[repr(C)]
#[derive(Copy, Clone)]
pub struct step_fault_t {
    /// Its number, 1 to 12 (`libyaml_automaton` names them).
    pub problem: u8,
    /// The start of the node or collection that it is in.
    pub context_mark: yaml_mark_t,
    /// Where it was found.
    pub problem_mark: yaml_mark_t,
}
