//! The nodes that the items of a sequence or the pairs of a mapping name.

ghost use Rattle.std.specs.Iterator.{YieldsFirstBy, YieldsFirstRef, item_count};

use crate::document::node_in;
use crate::items::yaml_node_item_t;
use crate::node::yaml_node_t;
use crate::pairs::yaml_node_pair_t;
use std::marker::Model;

/// The nodes of the items of a sequence, in their order: what `yaml_document_t::items` returns.
#[derive(Drop)]
pub struct yaml_node_items_t<'a> {
    nodes: &'a [yaml_node_t],
    items: &'a [yaml_node_item_t],
}

impl<'a> yaml_node_items_t<'a> {
    ghost use Rattle.std.specs.Prelude.{◌≡◌};
    ghost use Rattle.libyaml_documents.specs.Nodes.{nodes_named};

    /// Returns an iterator over the nodes among these that the ids name.
    pub(crate) fn new(nodes: &'a [yaml_node_t], items: &'a [yaml_node_item_t]) -> Self
        ensures { result ≡ nodes_named nodes.now items.now }
    {
        yaml_node_items_t { nodes, items }
    }
}

impl<'a> Model for yaml_node_items_t<'a> {
    ghost use Rattle.std.specs.Prelude.{List};
    ghost use Rattle.libyaml_documents.specs.Nodes.{nodes_named};
    ghost use Rattle.libyaml_documents.specs.declared.node.yaml_node_t.{yaml_node_t as Node};

    ghost Value = { List Node };

    ghost view = { λ s. nodes_named s.nodes.now s.items.now };
}

impl<'a> Iterator for yaml_node_items_t<'a> {
    type Item = &'a yaml_node_t;

    ghost next_gives = { YieldsFirstRef (λ rest. rest) };

    ghost remaining = { item_count (λ rest. rest) };

    fn next(&mut self) -> Option<&'a yaml_node_t> {
        let (item, others) = self.items.split_first()?;
        let node = node_in(self.nodes, *item)?;
        self.items = others;
        Some(node)
    }
}

/// The nodes of the keys and values of a mapping, pair by pair: what `yaml_document_t::pairs` returns.
#[derive(Drop)]
pub struct yaml_node_pairs_t<'a> {
    nodes: &'a [yaml_node_t],
    pairs: &'a [yaml_node_pair_t],
}

impl<'a> yaml_node_pairs_t<'a> {
    ghost use Rattle.std.specs.Prelude.{◌≡◌};
    ghost use Rattle.libyaml_documents.specs.Nodes.{pairs_named};

    /// Returns an iterator over the nodes among these that the ids of the pairs name.
    pub(crate) fn new(nodes: &'a [yaml_node_t], pairs: &'a [yaml_node_pair_t]) -> Self
        ensures { result ≡ pairs_named nodes.now pairs.now }
    {
        yaml_node_pairs_t { nodes, pairs }
    }
}

impl<'a> Model for yaml_node_pairs_t<'a> {
    ghost use Rattle.std.specs.Prelude.{List};
    ghost use Rattle.libyaml_documents.specs.Nodes.{pairs_named};
    ghost use Rattle.libyaml_documents.specs.declared.node.yaml_node_t.{yaml_node_t as Node};

    ghost Value = { List (Node × Node) };

    ghost view = { λ s. pairs_named s.nodes.now s.pairs.now };
}

impl<'a> Iterator for yaml_node_pairs_t<'a> {
    type Item = (&'a yaml_node_t, &'a yaml_node_t);

    ghost next_gives = { YieldsFirstBy (λ pair. (pair.0.now, pair.1.now)) (λ rest. rest) };

    ghost remaining = { item_count (λ rest. rest) };

    fn next(&mut self) -> Option<(&'a yaml_node_t, &'a yaml_node_t)> {
        let (pair, others) = self.pairs.split_first()?;
        let key = node_in(self.nodes, pair.key)?;
        let value = node_in(self.nodes, pair.value)?;
        self.pairs = others;
        Some((key, value))
    }
}
