//! Why a line source gave no token.
ghost use Rattle.std.specs.Prelude.{◌≡◌};
ghost use Rattle.libyaml_types.specs.Errors.{IsSourceError};
ghost use Rattle.libyaml_types.specs.Fault.{source_fault};
ghost use Rattle.line_reading.specs.sources.LineFault.{problem_at, line_fault};

use libyaml_types::{ZERO_MARK, yaml_error_type_t, yaml_mark_t, yaml_source_fault_t};
use std::alloc::AllocError;
use std::io;

/// Why a line source gave no token.
#[derive(Copy, Clone, PartialEq, Eq, Debug)]
pub(crate) enum LineProblem {
    /// An allocation failed.
    Memory,
    /// The reader returned an error.
    ReadFailed,
    /// The line has more than `MAX_LINE` bytes.
    LineTooLong,
    /// The line is no token line.
    BadTokenLine,
    /// As many tokens were given as are allowed.
    TooManyTokens,
    /// The input has ended.
    NoMoreTokens,
}

/// The words of the error of a failed read.
pub const READ_FAILED: &str = "read failed";

impl From<AllocError> for LineProblem {
    ghost use Rattle.std.specs.Prelude.{◌≡◌};
    ghost use Rattle.line_reading.specs.declared.line_problem.LineProblem.TheVariants.{Memory};

    ghost from_gives = { λ _ problem. problem ≡ Memory };

    fn from(_: AllocError) -> Self {
        Self::Memory
    }
}

impl From<io::Error> for LineProblem {
    ghost use Rattle.std.specs.Prelude.{◌≡◌};
    ghost use Rattle.line_reading.specs.declared.line_problem.LineProblem.TheVariants.{ReadFailed};

    ghost from_gives = { λ _ problem. problem ≡ ReadFailed };

    fn from(_: io::Error) -> Self {
        Self::ReadFailed
    }
}

impl LineProblem {
    /// Returns the error of a source that has given so many tokens.
    pub(crate) fn fault(self, given: u64) -> yaml_source_fault_t
        ensures { source_fault result ≡ line_fault self given }
    {
        let reader = yaml_error_type_t::YAML_READER_ERROR;
        let scanner = yaml_error_type_t::YAML_SCANNER_ERROR;
        match self {
            LineProblem::Memory => yaml_source_fault_t::out_of_memory(),
            LineProblem::ReadFailed => fault_at(reader, READ_FAILED, given),
            LineProblem::LineTooLong => fault_at(reader, "line too long", given),
            LineProblem::BadTokenLine => fault_at(scanner, "bad token line", given),
            LineProblem::TooManyTokens => fault_at(reader, "too many tokens", given),
            LineProblem::NoMoreTokens => fault_at(reader, "no more tokens", given),
        }
    }
}

/// Returns the error of the line that follows so many tokens, without a context.
fn fault_at(error: yaml_error_type_t, problem: &'static str, given: u64) -> yaml_source_fault_t
    requires { IsSourceError error }
    ensures { source_fault result ≡ problem_at error problem.entry.now given }
{
    let mark = yaml_mark_t {
        index: given,
        line: given,
        column: 0,
    };
    yaml_source_fault_t::new(error, Some(problem), given, -1, mark, None, ZERO_MARK)
}
