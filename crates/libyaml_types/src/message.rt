//! The messages of errors.
ghost use Rattle.std.specs.Prelude.{Some};
ghost use Rattle.libyaml_types.specs.Fault.{fault_of, source_fault};
ghost use Rattle.libyaml_types.specs.Message.{message};

use crate::fault::{yaml_parser_t_prefix, yaml_source_fault_t};
use crate::yaml_error_words;
use std::error::Error;
use std::fmt;

/// The problem and its place, or the kind of the error if there is no problem; then the context and its
/// place, if there is one.
impl fmt::Display for yaml_parser_t_prefix {
    ghost output = { λ p. Some (message (fault_of p)) };

    fn fmt<W: fmt::Write>(&self, f: &mut fmt::Formatter<W>) -> fmt::Result {
        match self.problem {
            Some(problem) => {
                let place = self.problem_mark;
                write!(f, "{problem} at {place}")?;
            }
            None => f.write_str(yaml_error_words(self.error))?,
        }
        match self.context {
            Some(context) => {
                let place = self.context_mark;
                write!(f, "; {context} at {place}")
            }
            None => Ok(()),
        }
    }
}

impl Error for yaml_parser_t_prefix {}

/// The message of `prefix()`.
impl fmt::Display for yaml_source_fault_t {
    ghost output = { λ s. Some (message (source_fault s)) };

    fn fmt<W: fmt::Write>(&self, f: &mut fmt::Formatter<W>) -> fmt::Result {
        let prefix = self.prefix();
        write!(f, "{prefix}")
    }
}

impl Error for yaml_source_fault_t {}
