//! A token as a caller hands it in.

use crate::records::step_span_t;
use libyaml_types::yaml_token_type_t;

/// A token as a caller hands it in: its kind, its fact and its marks.
#[derive(Copy, Clone)]
pub(crate) struct Handed<'a> {
    pub(crate) kind: yaml_token_type_t,
    pub(crate) fact: u8,
    pub(crate) at: &'a step_span_t,
}
