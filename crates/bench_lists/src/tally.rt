//! What becomes of events and nodes: they are counted, or their checksum is made.

use libyaml_documents::yaml_node_t;
use libyaml_events::{yaml_event_t, yaml_event_type_t, yaml_mark_t, yaml_node_type_t};

/// What is told of each event of a parse, or of the nodes of each document of a load.
pub trait Tally {
    /// Takes an event.
    fn event(&mut self, event: &yaml_event_t);

    /// Takes a document's nodes.
    fn nodes(&mut self, nodes: &[yaml_node_t]);
}

/// How many there were.
#[derive(Drop)]
pub struct Count {
    pub items: u64,
}

impl Tally for Count {
    #[inline(always)]
    fn event(&mut self, _event: &yaml_event_t) {
        self.items = self.items.wrapping_add(1);
    }

    #[inline(always)]
    fn nodes(&mut self, nodes: &[yaml_node_t]) {
        self.items = self.items.wrapping_add(nodes.len() as u64);
    }
}

/// How many there were, and a checksum of their types and marks.
#[derive(Drop)]
pub struct Checksum {
    pub items: u64,
    pub sum: u64,
}

impl Checksum {
    fn add(&mut self, number: u64, start: &yaml_mark_t, end: &yaml_mark_t) {
        let sum = self.sum.wrapping_mul(31).wrapping_add(number);
        let sum = sum.wrapping_mul(31).wrapping_add(start.index);
        self.sum = sum.wrapping_mul(31).wrapping_add(end.index);
        self.items = self.items.wrapping_add(1);
    }
}

impl Tally for Checksum {
    fn event(&mut self, event: &yaml_event_t) {
        self.add(
            event_number(event.type_()),
            &event.start_mark,
            &event.end_mark,
        );
    }

    fn nodes(&mut self, nodes: &[yaml_node_t]) {
        for node in nodes {
            self.add(node_number(node.type_()), &node.start_mark, &node.end_mark);
        }
    }
}

/// The number of an event's type in libyaml.
fn event_number(event_type: yaml_event_type_t) -> u64 {
    match event_type {
        yaml_event_type_t::YAML_NO_EVENT => 0,
        yaml_event_type_t::YAML_STREAM_START_EVENT => 1,
        yaml_event_type_t::YAML_STREAM_END_EVENT => 2,
        yaml_event_type_t::YAML_DOCUMENT_START_EVENT => 3,
        yaml_event_type_t::YAML_DOCUMENT_END_EVENT => 4,
        yaml_event_type_t::YAML_ALIAS_EVENT => 5,
        yaml_event_type_t::YAML_SCALAR_EVENT => 6,
        yaml_event_type_t::YAML_SEQUENCE_START_EVENT => 7,
        yaml_event_type_t::YAML_SEQUENCE_END_EVENT => 8,
        yaml_event_type_t::YAML_MAPPING_START_EVENT => 9,
        yaml_event_type_t::YAML_MAPPING_END_EVENT => 10,
    }
}

/// The number of a node's type in libyaml.
fn node_number(node_type: yaml_node_type_t) -> u64 {
    match node_type {
        yaml_node_type_t::YAML_NO_NODE => 0,
        yaml_node_type_t::YAML_SCALAR_NODE => 1,
        yaml_node_type_t::YAML_SEQUENCE_NODE => 2,
        yaml_node_type_t::YAML_MAPPING_NODE => 3,
    }
}
