//! What a state's function made of a token.

use crate::action::Action;
use crate::node_place::NodePlace;
use libyaml_types::yaml_parser_state_t;

/// What the function of a state made of a token.
#[derive(Copy, Clone)]
pub(crate) enum Taken {
    /// It is done with, and led to this.
    Done(Action),
    /// A node that is neither a scalar nor an alias begins here, after which this state comes.
    Enter(yaml_parser_state_t, NodePlace),
    /// Such a node begins here, after which the state on top of the stack comes.
    Node(NodePlace),
}
