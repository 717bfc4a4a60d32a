//! The steps by which a loader builds a document of events.

ghost use Rattle.std.specs.Prelude.{◌≡◌, ◌+◌, ◌<◌, ◌↔◌, ◌⊎◌, pos, [], Err, IfOk, OnOk, OnErr};
ghost use Rattle.std.specs.Prelude.{IsErrOf, length};
ghost use Rattle.libyaml_documents.specs.Documents.{most_nodes, with_node, with_changed_node};
ghost use Rattle.libyaml_documents.specs.LoadedNodes.{begun_document, ended_document, with_end};
ghost use Rattle.libyaml_documents.specs.Nodes.{ids_of, node_type, type_at, IsIdUpTo, KeepsTypes};

use super::add::{has_room, push_node};
use super::{place_of, yaml_document_t};
use crate::node::yaml_node_t;
use libyaml_types::{
    ZERO_MARK, unnamed_yaml_event_t_data_document_start, yaml_mark_t, yaml_refusal_t,
};
use std::alloc::Global;

/// Returns a document without nodes, which this start event begins at this mark. Its directives are moved
/// out of the event, and nothing is allocated. Its end is not known yet: until `end_document` it is explicit,
/// at the zero mark.
pub fn begin_document(
    alloc: Global,
    start: unnamed_yaml_event_t_data_document_start,
    start_mark: yaml_mark_t,
) -> yaml_document_t
    ensures { result ≡ begun_document start start_mark }
{
    yaml_document_t {
        nodes: Vec::new(alloc),
        version_directive: start.version_directive,
        tag_directives: start.tag_directives,
        start_implicit: start.implicit,
        end_implicit: false,
        start_mark,
        end_mark: ZERO_MARK,
    }
}

/// Sets how and where the document ends, and changes nothing else. Takes no memory.
pub fn end_document(document: &mut yaml_document_t, implicit: bool, end_mark: yaml_mark_t)
    ensures { document.new ≡ ended_document document.old implicit end_mark }
{
    document.end_implicit = implicit;
    document.end_mark = end_mark;
}

/// Appends a node without children, and returns its id, which is the new number of nodes. The node is moved.
///
/// # Errors
///
/// `TooManyNodes` if the document has 2147483647 nodes, else `Memory` if the allocation fails; the document
/// is then as it was.
#[inline(always)]
pub fn append_node(document: &mut yaml_document_t, node: yaml_node_t) -> Result<i32, yaml_refusal_t>
    requires childless { ids_of node.content ≡ [] }
    ensures id { IfOk result (λ id. id ≡ pos (length document.old.nodes + 1)) }
    ensures added { OnOk result (document.new ≡ with_node document.old node) }
    ensures room { OnOk result (length document.old.nodes < most_nodes) }
    ensures too_many { IsErrOf result yaml_refusal_t.TooManyNodes ↔ (length document.old.nodes ≡ most_nodes) }
    ensures memory { IsErrOf result yaml_refusal_t.Memory → length document.old.nodes < most_nodes }
    ensures errors { OnErr result ((result ≡ Err yaml_refusal_t.TooManyNodes)
        ⊎ (result ≡ Err yaml_refusal_t.Memory)) }
    ensures unchanged { OnErr result (document.new ≡ document.old) }

    // For the next call: the type of the new id, and that each other id keeps its type.
    ensures count { OnOk result (length document.new.nodes ≡ length document.old.nodes + 1) }
    ensures type_is { IfOk result (λ id. type_at document.new.nodes id ≡ node_type node.content) }
    ensures types_kept { KeepsTypes document.old.nodes document.new.nodes }
{
    has_room(document)?;
    push_node(document, node)
}

/// Sets where the node of this id ends, and changes nothing else. Takes no memory.
pub fn set_end_mark(document: &mut yaml_document_t, id: i32, end_mark: yaml_mark_t)
    requires { IsIdUpTo (length document.old.nodes) id }
    ensures changed { document.new ≡ with_changed_node document.old id (with_end end_mark) }

    // For the next call: each id keeps its type.
    ensures count { length document.new.nodes ≡ length document.old.nodes }
    ensures types_kept { KeepsTypes document.old.nodes document.new.nodes }
{
    document.nodes[place_of(id)].end_mark = end_mark;
}
