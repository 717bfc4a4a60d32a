//! Documents of YAML: nodes named by ids, built by calls.
#![tactic(auto)]

pub mod building;
mod document;
mod items;
pub mod laws;
mod loaded;
mod node;
mod pairs;
mod walk;

pub use document::{
    yaml_document_add_mapping, yaml_document_add_scalar, yaml_document_add_sequence,
    yaml_document_append_mapping_pair, yaml_document_append_sequence_item, yaml_document_delete,
    yaml_document_get_node, yaml_document_get_root_node, yaml_document_initialize, yaml_document_t,
};
pub use items::yaml_node_item_t;
pub use node::{
    unnamed_yaml_node_t_data, unnamed_yaml_node_t_data_mapping, unnamed_yaml_node_t_data_scalar,
    unnamed_yaml_node_t_data_sequence, yaml_alias_data_t, yaml_node_t,
};
pub use pairs::yaml_node_pair_t;
pub use walk::{yaml_node_items_t, yaml_node_pairs_t};
