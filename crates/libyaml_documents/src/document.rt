//! Documents, and the calls that read them.

ghost use Rattle.std.specs.Prelude.{◌≡◌, suc, ◌≤◌, ◌≤ℤ◌, ◌<◌, pos, ◌↔◌, IsSome, IfSome, Some};
ghost use Rattle.std.specs.Prelude.{Contains, length, map};
ghost use Rattle.std.specs.Option.{option_copied};
ghost use Rattle.libyaml_documents.specs.Documents.{most_nodes};
ghost use Rattle.libyaml_documents.specs.Nodes.{EveryIdNamesANode, node_at, node_type, type_at, IsIdUpTo};
ghost use Rattle.libyaml_documents.specs.Nodes.{items_of, pairs_of, pair_at, nodes_named, pairs_named};

mod add;
mod append;
mod building;
mod initialize;

use crate::node::yaml_node_t;
use crate::walk::{yaml_node_items_t, yaml_node_pairs_t};
pub use add::{yaml_document_add_mapping, yaml_document_add_scalar, yaml_document_add_sequence};
pub use append::{yaml_document_append_mapping_pair, yaml_document_append_sequence_item};
pub use building::{append_node, begin_document, end_document, set_end_mark};
pub use initialize::yaml_document_initialize;
use libyaml_types::{yaml_mark_t, yaml_tag_directive_t, yaml_version_directive_t};
use std::marker::Model;

/// A document: its nodes, which ids from 1 on name, and the fields of its start and end.
///
/// Every id in the items and pairs of its nodes names one of its nodes.
///
/// libyaml: `yaml_document_t`.
#[derive(Debug)]
pub struct yaml_document_t {
    nodes: Vec<yaml_node_t>,
    version_directive: Option<yaml_version_directive_t>,
    tag_directives: Vec<yaml_tag_directive_t>,
    start_implicit: bool,
    end_implicit: bool,
    start_mark: yaml_mark_t,
    end_mark: yaml_mark_t,
}

impl Model for yaml_document_t {
    ghost use Rattle.libyaml_documents.specs.Documents.{Document, AreNodes};

    ghost Value = { Document };

    ghost view = { λ d. record {
      nodes = d.nodes.items;
      version_directive = d.version_directive;
      tag_directives = d.tag_directives.items;
      start_implicit = d.start_implicit;
      end_implicit = d.end_implicit;
      start_mark = d.start_mark;
      end_mark = d.end_mark;
    } };

    ghost invariant = { λ d. AreNodes d.nodes.items };
}

impl Drop for yaml_document_t {
    /// The last node goes first, like libyaml's: what it frees then stays with the process.
    fn drop(self) {
        let yaml_document_t {
            mut nodes,
            version_directive: _,
            tag_directives: _,
            start_implicit: _,
            end_implicit: _,
            start_mark: _,
            end_mark: _,
        } = self;
        while let Some(_) = nodes.pop() {}
    }
}

impl yaml_document_t {
    /// Returns the nodes in the order of their ids: the node of id 1 comes first.
    ///
    /// Takes no memory.
    pub fn nodes(&self) -> &[yaml_node_t]
        ensures all { result.now ≡ self.now.nodes }
        ensures ids_in_range { EveryIdNamesANode self.now.nodes }
        ensures count { length self.now.nodes ≤ most_nodes }
    {
        self.nodes.as_slice()
    }

    /// Returns the root, which is the node of id 1, or `None` if the document has no nodes.
    pub fn root(&self) -> Option<&yaml_node_t>
        ensures found { IsSome result ↔ (0 < length self.now.nodes) }
        ensures node { option_copied result ≡ node_at self.now.nodes (pos 1) }
    {
        yaml_document_get_root_node(self)
    }

    /// Returns an iterator over the nodes of a sequence's items, in their order. Of any other node it yields
    /// nothing.
    ///
    /// It ends before the first id that names no node of this document. A node of this document has no such
    /// id.
    pub fn items<'a>(&'a self, node: &'a yaml_node_t) -> yaml_node_items_t<'a>
        ensures nodes { result ≡ nodes_named self.now.nodes (items_of node.now.content) }
        ensures each { Contains self.now.nodes node.now → map (λ item. Some item) result
            ≡ map (λ id. node_at self.now.nodes id) (items_of node.now.content) }
    {
        yaml_node_items_t::new(self.nodes(), node.items())
    }

    /// Returns an iterator over the nodes of a mapping's pairs, each the key's node and the value's, in their
    /// order. Of any other node it yields nothing.
    ///
    /// It ends before the first pair with an id that names no node of this document. A node of this document
    /// has no such pair.
    pub fn pairs<'a>(&'a self, node: &'a yaml_node_t) -> yaml_node_pairs_t<'a>
        ensures nodes { result ≡ pairs_named self.now.nodes (pairs_of node.now.content) }
        ensures each { Contains self.now.nodes node.now → map (λ pair. Some pair) result
            ≡ map (λ pair. pair_at self.now.nodes pair) (pairs_of node.now.content) }
    {
        yaml_node_pairs_t::new(self.nodes(), node.pairs())
    }

    /// Returns the version that the document asks for, if it does.
    pub fn version_directive(&self) -> Option<yaml_version_directive_t>
        ensures { result ≡ self.now.version_directive }
    {
        self.version_directive
    }

    /// Returns the tag directives in their order.
    pub fn tag_directives(&self) -> &[yaml_tag_directive_t]
        ensures { result.now ≡ self.now.tag_directives }
    {
        self.tag_directives.as_slice()
    }

    /// Returns whether the document starts without a DOCUMENT-START.
    pub fn start_implicit(&self) -> bool
        ensures { result ≡ self.now.start_implicit }
    {
        self.start_implicit
    }

    /// Returns whether the document ends without a DOCUMENT-END.
    pub fn end_implicit(&self) -> bool
        ensures { result ≡ self.now.end_implicit }
    {
        self.end_implicit
    }

    /// Returns where the document begins.
    pub fn start_mark(&self) -> yaml_mark_t
        ensures { result ≡ self.now.start_mark }
    {
        self.start_mark
    }

    /// Returns where the document ends.
    pub fn end_mark(&self) -> yaml_mark_t
        ensures { result ≡ self.now.end_mark }
    {
        self.end_mark
    }
}

impl PartialEq for yaml_document_t {
    ghost use Rattle.std.specs.Cmp.{partial_equiv_from_equiv};
    ghost use Rattle.libyaml_documents.specs.Equal.{same_document, same_document_equiv};

    ghost eq = { same_document };

    ghost laws = { partial_equiv_from_equiv same_document_equiv };

    fn eq(&self, other: &Self) -> bool {
        self.nodes() == other.nodes()
            && self.version_directive == other.version_directive
            && self.tag_directives == other.tag_directives
            && self.start_implicit == other.start_implicit
            && self.end_implicit == other.end_implicit
            && self.start_mark == other.start_mark
            && self.end_mark == other.end_mark
    }
}

impl Eq for yaml_document_t {
    ghost use Rattle.libyaml_documents.specs.Equal.{same_document_equiv};

    ghost laws = { same_document_equiv };
}

/// Returns the place of the node of this id: ids count from 1, places from 0.
fn place_of(id: i32) -> usize
    requires { pos 1 ≤ℤ id }
    ensures { id ≡ pos (suc result) }
{
    id as usize - 1
}

/// Frees the document.
///
/// libyaml: `yaml_document_delete`.
pub fn yaml_document_delete(document: yaml_document_t) {
    let _ = document;
}

/// Returns the node of this id, or `None` if no node has it. Ids count from 1.
///
/// Takes no memory.
///
/// libyaml: `yaml_document_get_node`.
pub fn yaml_document_get_node(document: &yaml_document_t, index: i32) -> Option<&yaml_node_t>
    ensures found { IsSome result ↔ IsIdUpTo (length document.now.nodes) index }
    ensures node { option_copied result ≡ node_at document.now.nodes index }
    ensures type_is { IfSome result (λ node. node_type node.now.content ≡ type_at document.now.nodes index) }
    ensures ids_in_range { EveryIdNamesANode document.now.nodes }
{
    node_in(document.nodes(), index)
}

/// Returns the node of this id among these, or `None` if none has it.
#[inline(always)]
pub(crate) fn node_in(nodes: &[yaml_node_t], id: i32) -> Option<&yaml_node_t>
    ensures found { IsSome result ↔ IsIdUpTo (length nodes.now) id }
    ensures node { option_copied result ≡ node_at nodes.now id }
{
    if id < 1 {
        return None;
    }
    nodes.get(place_of(id))
}

/// Returns the node of id 1, or `None` if the document has no nodes.
///
/// Takes no memory.
///
/// libyaml: `yaml_document_get_root_node`.
pub fn yaml_document_get_root_node(document: &yaml_document_t) -> Option<&yaml_node_t>
    ensures found { IsSome result ↔ (0 < length document.now.nodes) }
    ensures node { option_copied result ≡ node_at document.now.nodes (pos 1) }
    ensures type_is { IfSome result (λ node. node_type node.now.content
        ≡ type_at document.now.nodes (pos 1)) }
{
    document.nodes.first()
}
