//! Runs: from token lines to the lines of events or of documents.
ghost use Rattle.std.specs.Prelude.{◌≡◌, ◌⊎◌};
ghost use Rattle.std.specs.Io.KnownBytes.{Keeps};
ghost use Rattle.token_lines.specs.lines.LineRun.{ClosedBy, outcome_of};

mod events;
mod nodes;

pub use events::{run_events, write_events};
use libyaml_events::{yaml_parser_t, yaml_parser_t_prefix, yaml_token_source_t};
use line_writing::write_fault;
pub use nodes::{run_nodes, write_nodes};
use std::io;
use std::io::Write;

/// How a run ended.
#[derive(Copy, Clone, PartialEq, Eq, Debug)]
pub enum Outcome {
    /// All was written, or nothing was left to write.
    Ended,
    /// The text of an error was written.
    Faulted,
    /// A write or a flush failed.
    OutputFailed,
}

/// How a run ended, with the error whose text it wrote.
#[derive(Copy, Clone, PartialEq, Eq, Debug)]
pub enum run_end_t {
    /// All was written, or nothing was left to write.
    Ended,
    /// The text of this error was written.
    Faulted(yaml_parser_t_prefix),
    /// A write or a flush failed.
    OutputFailed,
}

impl run_end_t {
    /// Returns how the run ended, without its error.
    pub fn outcome(&self) -> Outcome
        ensures { result ≡ outcome_of self.now }
    {
        match self {
            run_end_t::Ended => Outcome::Ended,
            run_end_t::Faulted(_) => Outcome::Faulted,
            run_end_t::OutputFailed => Outcome::OutputFailed,
        }
    }
}

/// What ends a run.
#[derive(Copy, Clone)]
enum LastStep {
    /// The last line was written, or none was left.
    Ended,
    /// An error came, whose text is still to be written.
    Failed(yaml_parser_t_prefix),
    /// A write failed.
    OutputFailed,
}

/// Ends a run after its last step: writes the text of the error by which that failed, and flushes the writer.
fn closed<W: Write>(last: &LastStep, writer: &mut W) -> run_end_t
    ensures { ClosedBy last.now result (W.contents writer.old) (W.contents writer.new) }
{
    match last {
        LastStep::Ended => flushed(run_end_t::Ended, writer),
        LastStep::Failed(fault) => match write_fault(fault, writer) {
            Ok(()) => flushed(run_end_t::Faulted(*fault), writer),
            Err(_) => run_end_t::OutputFailed,
        },
        LastStep::OutputFailed => run_end_t::OutputFailed,
    }
}

/// Flushes the writer if the parser may have to wait for its next token, so that whoever reads what is
/// written then has all of it.
#[inline(always)]
fn show<S: yaml_token_source_t, W: Write>(
    parser: &yaml_parser_t<S>,
    writer: &mut W,
) -> io::Result<()>
    ensures { Keeps (W.contents writer.old) (W.contents writer.new) }
{
    if parser.may_wait() {
        writer.flush()?;
    }
    Ok(())
}

/// Flushes the writer after all that a run has written.
fn flushed<W: Write>(end: run_end_t, writer: &mut W) -> run_end_t
    ensures end { (result ≡ end) ⊎ (result ≡ run_end_t.OutputFailed) }
    ensures keeps { Keeps (W.contents writer.old) (W.contents writer.new) }
{
    match writer.flush() {
        Ok(()) => end,
        Err(_) => run_end_t::OutputFailed,
    }
}
