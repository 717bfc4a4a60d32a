//! Laws of comparisons. Each function compares two values, and its contract is the law.

ghost use Rattle.std.specs.Prelude.{◌≡◌, ◌↔◌, IsTrue};

use crate::document::yaml_document_t;
use crate::node::yaml_node_t;
use libyaml_types::{yaml_event_t, yaml_token_t};

/// Returns whether two of `yaml_token_t` are equal, which they are exactly if all their fields are.
pub fn equality_of_tokens(token: &yaml_token_t, other: &yaml_token_t) -> bool
    ensures { IsTrue result ↔ (token.now ≡ other.now) }
{
    token == other
}

/// Returns whether two of `yaml_event_t` are equal, which they are exactly if all their fields are.
pub fn equality_of_events(event: &yaml_event_t, other: &yaml_event_t) -> bool
    ensures { IsTrue result ↔ (event.now ≡ other.now) }
{
    event == other
}

/// Returns whether two of `yaml_node_t` are equal, which they are exactly if all their fields are.
pub fn equality_of_nodes(node: &yaml_node_t, other: &yaml_node_t) -> bool
    ensures { IsTrue result ↔ (node.now ≡ other.now) }
{
    node == other
}

/// Returns whether two of `yaml_document_t` are equal, which they are exactly if their nodes, directives,
/// flags and marks are.
pub fn equality_of_documents(document: &yaml_document_t, other: &yaml_document_t) -> bool
    ensures { IsTrue result ↔ (document.now ≡ other.now) }
{
    document == other
}
