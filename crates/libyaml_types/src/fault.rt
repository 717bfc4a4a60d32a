//! Errors: why a source or a parser gave no more.

ghost use Rattle.std.specs.Prelude.{◌≡◌};
ghost use Rattle.std.specs.Option.{option_copied};
ghost use Rattle.libyaml_types.specs.Errors.{IsSourceError};

use crate::{ZERO_MARK, yaml_error_type_t, yaml_mark_t};

/// An error with all the fields that a parser keeps. A parser without error keeps `NO_FAULT`.
///
/// libyaml: `yaml_parser_t_prefix`.
#[derive(Copy, Clone, PartialEq, Eq, Debug)]
pub struct yaml_parser_t_prefix {
    /// The kind of the error.
    pub error: yaml_error_type_t,
    /// What went wrong, in words.
    pub problem: Option<&'static str>,
    /// How far the source had come, in units of its own.
    pub problem_offset: u64,
    /// The value that did not fit, or -1.
    pub problem_value: i32,
    /// Where it went wrong.
    pub problem_mark: yaml_mark_t,
    /// What was being read, in words.
    pub context: Option<&'static str>,
    /// Where what was being read begins.
    pub context_mark: yaml_mark_t,
}

/// What a parser without error keeps.
pub const NO_FAULT: yaml_parser_t_prefix = yaml_parser_t_prefix {
    error: yaml_error_type_t::YAML_NO_ERROR,
    problem: None,
    problem_offset: 0,
    problem_value: 0,
    problem_mark: ZERO_MARK,
    context: None,
    context_mark: ZERO_MARK,
};

/// What a parser keeps after a failed allocation.
pub const MEMORY_FAULT: yaml_parser_t_prefix = yaml_parser_t_prefix {
    error: yaml_error_type_t::YAML_MEMORY_ERROR,
    ..NO_FAULT
};

/// The error of a token source. Its kind is `YAML_MEMORY_ERROR`, `YAML_READER_ERROR` or
/// `YAML_SCANNER_ERROR`.
#[derive(Copy, Clone, PartialEq, Eq, Debug)]
pub struct yaml_source_fault_t {
    prefix: yaml_parser_t_prefix,
    ghost of_source: { IsSourceError prefix.error },
}

impl yaml_source_fault_t {
    ghost use Rattle.libyaml_types.specs.Fault.{source_fault, fault_of, memory_fault, scanner_fault};

    /// Returns the error of these fields. `error` must be one of the three that a source may have. Takes no
    /// memory.
    pub fn new(
        error: yaml_error_type_t,
        problem: Option<&'static str>,
        problem_offset: u64,
        problem_value: i32,
        problem_mark: yaml_mark_t,
        context: Option<&'static str>,
        context_mark: yaml_mark_t,
    ) -> Self
        requires { IsSourceError error }
        ensures { source_fault result ≡ record {
          error = error;
          problem = option_copied problem.entry;
          problem_offset = problem_offset;
          problem_value = problem_value;
          problem_mark = problem_mark;
          context = option_copied context.entry;
          context_mark = context_mark;
        } }
    {
        yaml_source_fault_t {
            prefix: yaml_parser_t_prefix {
                error,
                problem,
                problem_offset,
                problem_value,
                problem_mark,
                context,
                context_mark,
            },
        }
    }

    /// Returns a scanner's error of this problem at this mark. It has no context, and its offset and value
    /// are 0. Takes no memory.
    pub fn scanner_error(problem: &'static str, problem_mark: yaml_mark_t) -> Self
        ensures { source_fault result ≡ scanner_fault problem.now problem_mark }
    {
        yaml_source_fault_t {
            prefix: yaml_parser_t_prefix {
                error: yaml_error_type_t::YAML_SCANNER_ERROR,
                problem: Some(problem),
                problem_mark,
                ..NO_FAULT
            },
        }
    }

    /// Returns the error of a failed allocation. Takes no memory.
    pub fn out_of_memory() -> Self
        ensures { source_fault result ≡ memory_fault }
    {
        yaml_source_fault_t {
            prefix: MEMORY_FAULT,
        }
    }

    /// Returns all the fields that a parser keeps.
    pub fn prefix(&self) -> yaml_parser_t_prefix
        ensures { fault_of result ≡ source_fault self.now }
    {
        self.prefix
    }

    /// Returns the kind of the error.
    pub fn error(&self) -> yaml_error_type_t
        ensures value { result ≡ (source_fault self.now).error }
        ensures of_source { IsSourceError result }
    {
        self.prefix.error
    }

    /// Returns what went wrong, in words.
    pub fn problem(&self) -> Option<&'static str>
        ensures { option_copied result ≡ (source_fault self.now).problem }
    {
        self.prefix.problem
    }

    /// Returns how far the source had come, in units of its own.
    pub fn problem_offset(&self) -> u64
        ensures { result ≡ (source_fault self.now).problem_offset }
    {
        self.prefix.problem_offset
    }

    /// Returns the value that did not fit, or -1.
    pub fn problem_value(&self) -> i32
        ensures { result ≡ (source_fault self.now).problem_value }
    {
        self.prefix.problem_value
    }

    /// Returns where it went wrong.
    pub fn problem_mark(&self) -> yaml_mark_t
        ensures { result ≡ (source_fault self.now).problem_mark }
    {
        self.prefix.problem_mark
    }

    /// Returns what was being read, in words.
    pub fn context(&self) -> Option<&'static str>
        ensures { option_copied result ≡ (source_fault self.now).context }
    {
        self.prefix.context
    }

    /// Returns where what was being read begins.
    pub fn context_mark(&self) -> yaml_mark_t
        ensures { result ≡ (source_fault self.now).context_mark }
    {
        self.prefix.context_mark
    }
}
