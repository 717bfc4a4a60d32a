//! A token without its texts.
use libyaml_types::{yaml_mark_t, yaml_token_type_t};

/// A token without its texts, which are the caller's: its kind, and where it begins and ends.
#[derive(Copy, Clone)]
pub struct Token<'a> {
    pub kind: yaml_token_type_t,
    pub start_mark: &'a yaml_mark_t,
    pub end_mark: &'a yaml_mark_t,
}
