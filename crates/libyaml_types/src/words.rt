//! The words for the kinds of errors, and the names of the types of events and nodes.
ghost use Rattle.std.specs.Prelude.{◌≡◌, Some};
ghost use Rattle.libyaml_types.specs.Words.{error_words, event_type_name, node_type_name};

use crate::enums::{yaml_error_type_t, yaml_event_type_t, yaml_node_type_t};
use std::error::Error;
use std::fmt;

/// Returns the kind of an error in words.
///
/// libyaml: none; its tools name the kinds.
pub fn yaml_error_words(error: yaml_error_type_t) -> &'static str
    ensures { result.now ≡ error_words error }
{
    match error {
        yaml_error_type_t::YAML_NO_ERROR => "no error",
        yaml_error_type_t::YAML_MEMORY_ERROR => "out of memory",
        yaml_error_type_t::YAML_READER_ERROR => "reader error",
        yaml_error_type_t::YAML_SCANNER_ERROR => "scanner error",
        yaml_error_type_t::YAML_PARSER_ERROR => "parser error",
        yaml_error_type_t::YAML_COMPOSER_ERROR => "composer error",
        yaml_error_type_t::YAML_WRITER_ERROR => "writer error",
        yaml_error_type_t::YAML_EMITTER_ERROR => "emitter error",
    }
}

/// The words of `yaml_error_words`.
impl fmt::Display for yaml_error_type_t {
    ghost output = { λ e. Some (error_words e) };

    fn fmt<W: fmt::Write>(&self, f: &mut fmt::Formatter<W>) -> fmt::Result {
        f.write_str(yaml_error_words(*self))
    }
}

impl Error for yaml_error_type_t {}

/// The name that `name` returns.
impl fmt::Display for yaml_event_type_t {
    ghost output = { λ e. Some (event_type_name e) };

    fn fmt<W: fmt::Write>(&self, f: &mut fmt::Formatter<W>) -> fmt::Result {
        f.write_str(self.name())
    }
}

/// The name that `name` returns.
impl fmt::Display for yaml_node_type_t {
    ghost output = { λ t. Some (node_type_name t) };

    fn fmt<W: fmt::Write>(&self, f: &mut fmt::Formatter<W>) -> fmt::Result {
        f.write_str(self.name())
    }
}
