//! Nodes of a document.

ghost use Rattle.std.specs.Prelude.{◌≡◌, suc, nat_lt, true, false, IfOk, OnOk, OnErr};

use crate::items::yaml_node_item_t;
use crate::pairs::yaml_node_pair_t;
use libyaml_types::{
    yaml_mapping_style_t, yaml_mark_t, yaml_node_type_t, yaml_scalar_style_t, yaml_sequence_style_t,
};
use std::alloc::AllocError;
use std::marker::Model;

/// The value of a scalar node, and how it is written.
///
/// libyaml: `unnamed_yaml_node_t_data_scalar`.
#[derive(Debug, Drop)]
pub struct unnamed_yaml_node_t_data_scalar {
    /// The text.
    pub value: String,
    /// How it is written.
    pub style: yaml_scalar_style_t,
}

impl Model for unnamed_yaml_node_t_data_scalar {
    ghost use Rattle.std.specs.Prelude.{string_bytes};
    ghost use Rattle.libyaml_documents.specs.Models.{ScalarNode};

    ghost Value = { ScalarNode };

    ghost view = { λ n. record {
      value = string_bytes n.value;
      style = n.style;
    } };
}

impl PartialEq for unnamed_yaml_node_t_data_scalar {
    ghost use Rattle.std.specs.Cmp.{partial_equiv_from_equiv};
    ghost use Rattle.libyaml_documents.specs.EqualPayloads.{same_scalar_node, same_scalar_node_equiv};

    ghost eq = { same_scalar_node };

    ghost laws = { partial_equiv_from_equiv same_scalar_node_equiv };

    fn eq(&self, other: &Self) -> bool {
        self.value == other.value && self.style == other.style
    }
}

impl Eq for unnamed_yaml_node_t_data_scalar {
    ghost use Rattle.libyaml_documents.specs.EqualPayloads.{same_scalar_node_equiv};

    ghost laws = { same_scalar_node_equiv };
}

/// The items of a sequence node, and how it is written.
///
/// libyaml: `unnamed_yaml_node_t_data_sequence`.
#[derive(Debug, Drop)]
pub struct unnamed_yaml_node_t_data_sequence {
    /// The ids of the items' nodes, in order.
    pub items: Vec<yaml_node_item_t>,
    /// How it is written.
    pub style: yaml_sequence_style_t,
}

impl Model for unnamed_yaml_node_t_data_sequence {
    ghost use Rattle.libyaml_documents.specs.Models.{SequenceNode};

    ghost Value = { SequenceNode };

    ghost view = { λ n. record {
      items = n.items.items;
      style = n.style;
    } };
}

impl PartialEq for unnamed_yaml_node_t_data_sequence {
    ghost use Rattle.std.specs.Cmp.{partial_equiv_from_equiv};
    ghost use Rattle.libyaml_documents.specs.EqualPayloads.{same_sequence_node, same_sequence_node_equiv};

    ghost eq = { same_sequence_node };

    ghost laws = { partial_equiv_from_equiv same_sequence_node_equiv };

    fn eq(&self, other: &Self) -> bool {
        self.items == other.items && self.style == other.style
    }
}

impl Eq for unnamed_yaml_node_t_data_sequence {
    ghost use Rattle.libyaml_documents.specs.EqualPayloads.{same_sequence_node_equiv};

    ghost laws = { same_sequence_node_equiv };
}

/// The pairs of a mapping node, and how it is written.
///
/// libyaml: `unnamed_yaml_node_t_data_mapping`.
#[derive(Debug, Drop)]
pub struct unnamed_yaml_node_t_data_mapping {
    /// The ids of the keys' and values' nodes, in order.
    pub pairs: Vec<yaml_node_pair_t>,
    /// How it is written.
    pub style: yaml_mapping_style_t,
}

impl Model for unnamed_yaml_node_t_data_mapping {
    ghost use Rattle.libyaml_documents.specs.Models.{MappingNode};

    ghost Value = { MappingNode };

    ghost view = { λ n. record {
      pairs = n.pairs.items;
      style = n.style;
    } };
}

impl PartialEq for unnamed_yaml_node_t_data_mapping {
    ghost use Rattle.std.specs.Cmp.{partial_equiv_from_equiv};
    ghost use Rattle.libyaml_documents.specs.EqualPayloads.{same_mapping_node, same_mapping_node_equiv};

    ghost eq = { same_mapping_node };

    ghost laws = { partial_equiv_from_equiv same_mapping_node_equiv };

    fn eq(&self, other: &Self) -> bool {
        self.pairs == other.pairs && self.style == other.style
    }
}

impl Eq for unnamed_yaml_node_t_data_mapping {
    ghost use Rattle.libyaml_documents.specs.EqualPayloads.{same_mapping_node_equiv};

    ghost laws = { same_mapping_node_equiv };
}

/// What a node is, with its payload.
///
/// libyaml: the union `unnamed_yaml_node_t_data`.
#[derive(PartialEq, Eq, Debug, Drop)]
pub enum unnamed_yaml_node_t_data {
    /// A scalar.
    Scalar(unnamed_yaml_node_t_data_scalar),
    /// A sequence.
    Sequence(unnamed_yaml_node_t_data_sequence),
    /// A mapping.
    Mapping(unnamed_yaml_node_t_data_mapping),
}

/// A node with its tag and the places at which it begins and ends.
///
/// libyaml: `yaml_node_t`.
#[derive(Debug, Drop)]
pub struct yaml_node_t {
    /// The tag; a loaded node without one, or with `!`, has that of its type.
    pub tag: String,
    /// What it holds.
    pub content: unnamed_yaml_node_t_data,
    /// Where it begins.
    pub start_mark: yaml_mark_t,
    /// Where it ends.
    pub end_mark: yaml_mark_t,
}

impl Model for yaml_node_t {
    ghost use Rattle.std.specs.Prelude.{string_bytes};
    ghost use Rattle.libyaml_documents.specs.Node.{Node};

    ghost Value = { Node };

    ghost view = { λ n. record {
      tag = string_bytes n.tag;
      content = n.content;
      start_mark = n.start_mark;
      end_mark = n.end_mark;
    } };
}

impl PartialEq for yaml_node_t {
    ghost use Rattle.std.specs.Cmp.{partial_equiv_from_equiv};
    ghost use Rattle.libyaml_documents.specs.EqualNodes.{same_node, same_node_equiv};

    ghost eq = { same_node };

    ghost laws = { partial_equiv_from_equiv same_node_equiv };

    fn eq(&self, other: &Self) -> bool {
        self.tag == other.tag
            && self.content == other.content
            && self.start_mark == other.start_mark
            && self.end_mark == other.end_mark
    }
}

impl Eq for yaml_node_t {
    ghost use Rattle.libyaml_documents.specs.EqualNodes.{same_node_equiv};

    ghost laws = { same_node_equiv };
}

impl yaml_node_t {
    ghost use Rattle.libyaml_documents.specs.Nodes.{node_type, items_of, pairs_of};
    ghost use Rattle.libyaml_documents.specs.Nodes.{IsSequence, IsMapping, with_item, with_pair};

    /// Returns the type of the node, which is never `YAML_NO_NODE`.
    ///
    /// libyaml: the field `type`.
    pub fn type_(&self) -> yaml_node_type_t
        ensures { result ≡ node_type self.now.content }
    {
        match &self.content {
            unnamed_yaml_node_t_data::Scalar(_) => yaml_node_type_t::YAML_SCALAR_NODE,
            unnamed_yaml_node_t_data::Sequence(_) => yaml_node_type_t::YAML_SEQUENCE_NODE,
            unnamed_yaml_node_t_data::Mapping(_) => yaml_node_type_t::YAML_MAPPING_NODE,
        }
    }

    /// Returns the items of a sequence, which are ids of nodes; no other node has any.
    ///
    /// libyaml: the field `items` of a sequence.
    pub fn items(&self) -> &[yaml_node_item_t]
        ensures { result.now ≡ items_of self.now.content }
    {
        match &self.content {
            unnamed_yaml_node_t_data::Sequence(sequence) => sequence.items.as_slice(),
            _ => &[],
        }
    }

    /// Returns the pairs of a mapping, which are ids of nodes; no other node has any.
    ///
    /// libyaml: the field `pairs` of a mapping.
    pub fn pairs(&self) -> &[yaml_node_pair_t]
        ensures { result.now ≡ pairs_of self.now.content }
    {
        match &self.content {
            unnamed_yaml_node_t_data::Mapping(mapping) => mapping.pairs.as_slice(),
            _ => &[],
        }
    }

    /// Appends an item to this sequence.
    ///
    /// # Errors
    ///
    /// `AllocError` if an allocation fails; the node is then as it was.
    pub(crate) fn push_item(&mut self, item: yaml_node_item_t) -> Result<(), AllocError>
        requires { IsSequence self.old }
        ensures ok { OnOk result (self.new ≡ with_item item self.old) }
        ensures err { OnErr result (self.new ≡ self.old) }
    {
        match &mut self.content {
            unnamed_yaml_node_t_data::Sequence(sequence) => {
                sequence.items.push(item)?;
                Ok(())
            }
            _ => unreachable!(),
        }
    }

    /// Appends a pair to this mapping.
    ///
    /// # Errors
    ///
    /// `AllocError` if an allocation fails; the node is then as it was.
    pub(crate) fn push_pair(&mut self, pair: yaml_node_pair_t) -> Result<(), AllocError>
        requires { IsMapping self.old }
        ensures ok { OnOk result (self.new ≡ with_pair pair.key pair.value self.old) }
        ensures err { OnErr result (self.new ≡ self.old) }
    {
        match &mut self.content {
            unnamed_yaml_node_t_data::Mapping(mapping) => {
                mapping.pairs.push(pair)?;
                Ok(())
            }
            _ => unreachable!(),
        }
    }
}

/// An anchor, the id of the node that has it, and the place where that node begins.
///
/// libyaml: `yaml_alias_data_t`.
#[derive(Debug, Drop)]
pub struct yaml_alias_data_t {
    /// The name of the anchor.
    pub anchor: String,
    /// The id of the node.
    pub index: i32,
    /// Where the node begins.
    pub mark: yaml_mark_t,
}

impl Model for yaml_alias_data_t {
    ghost use Rattle.std.specs.Prelude.{string_bytes};
    ghost use Rattle.libyaml_documents.specs.Models.{AliasData};

    ghost Value = { AliasData };

    ghost view = { λ n. record {
      anchor = string_bytes n.anchor;
      index = n.index;
      mark = n.mark;
    } };
}
