//! Runs over token lines in memory. They put as many bytes of the lines into a buffer as it has room for.
ghost use Rattle.std.specs.Prelude.{◌≡◌, ℕ, List, [], Some, true};
ghost use Rattle.libyaml_types.specs.Fault.{fault_of};
ghost use Rattle.libyaml_grammar.specs.runs.Runs.{Ending};
ghost use Rattle.line_reading.specs.sources.NextLine.{BreaksOffAt};
ghost use Rattle.token_lines.specs.lines.InMemory.{HandsOut, InMemory};
ghost use Rattle.token_lines.specs.lines.LineRun.{Writes};

mod events;
mod nodes;

use crate::run::run_end_t;
pub use events::events_in_memory;
use libyaml_types::{yaml_error_type_t, yaml_parser_t_prefix};
use line_reading::READ_FAILED;
pub use nodes::nodes_in_memory;

/// How a run over memory ended.
#[derive(Copy, Clone, PartialEq, Eq, Debug)]
pub enum memory_outcome_t {
    /// The bytes are all lines of the run.
    Ended,
    /// The bytes are all lines of the run, followed by the text of its error.
    Faulted,
    /// An allocation failed. The bytes are the text of that error alone.
    OutOfMemory,
}

/// What a run put into its caller's buffer.
#[derive(Copy, Clone, PartialEq, Eq, Debug)]
pub struct memory_run_t {
    /// How the run ended.
    pub outcome: memory_outcome_t,
    /// How many bytes were put into the buffer: as many as there are, or as it has room for.
    pub written: usize,
    /// How many bytes the whole run has.
    pub wanted: usize,
}

/// The text of the error of a failed allocation.
const MEMORY_TEXT: &[u8] = b"FAULT memory 0:0:0 -\n";

/// Hands out what a run wrote: its bytes if it was whole, otherwise the text of a failed allocation.
fn hand_out(end: &run_end_t, bytes: &[u8], out: &mut [u8]) -> memory_run_t
    ensures { (n : ℕ) (lines : List (List ℕ)) (ending : Ending)
        → Writes (BreaksOffAt n) end.now (Some []) (Some bytes.now) lines ending
        → InMemory lines ending out.old out.new result }
{
    match end {
        run_end_t::Ended => put(memory_outcome_t::Ended, bytes, out),
        run_end_t::Faulted(fault) if !cuts_short(fault) => {
            put(memory_outcome_t::Faulted, bytes, out)
        }
        _ => put(memory_outcome_t::OutOfMemory, MEMORY_TEXT, out),
    }
}

/// Returns whether this is the error of a failed allocation, or of a failed read, which doesn't occur in
/// memory.
fn cuts_short(fault: &yaml_parser_t_prefix) -> bool
    ensures { (n : ℕ) → BreaksOffAt n (fault_of fault.now) → result ≡ true }
{
    match fault.problem {
        Some(problem) => problem == READ_FAILED,
        None => fault.error == yaml_error_type_t::YAML_MEMORY_ERROR,
    }
}

/// Puts the prefix of these bytes that `out` has room for into it.
fn put(outcome: memory_outcome_t, bytes: &[u8], out: &mut [u8]) -> memory_run_t
    ensures { HandsOut outcome bytes.now out.old out.new result }
{
    let written = bytes.len().min(out.len());
    out[..written].copy_from_slice(&bytes[..written]);
    memory_run_t {
        outcome,
        written,
        wanted: bytes.len(),
    }
}
