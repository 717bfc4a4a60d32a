//! What the words of the command line ask for.
ghost use Rattle.std.specs.Prelude.{◌≡◌, ◌<◌, Some, None, codes, map, string_bytes};
ghost use Rattle.token_lines.specs.Arguments.{run_of, asked_run, BeginsLine, RunsWith, WasOver};

use crate::{Outcome, run_events, run_nodes};
use std::alloc::Global;
use std::io::{BufRead, ErrorKind, Write};

/// The exit status of words that ask for nothing, or that can't be read.
const WRONG_WORDS: u8 = 2;

/// The exit status if a write or a flush failed, or if no memory was found for a buffer.
const OUTPUT_FAILED: u8 = 3;

/// A line for the user is given up after so many writes.
const MOST_WRITES: u32 = 1 << 16;

/// What the program is asked to write.
#[derive(Copy, Clone)]
pub enum Run {
    /// The lines of events.
    Events,
    /// The texts of documents.
    Nodes,
}

/// Runs what the words after the program's name ask for, from `reader` to `output`, and returns the
/// exit status. The words are looked at before anything is read.
///
/// A line for the user goes to `errors`; if it can't be written, the status stays.
pub fn run_words<R: BufRead + Drop, W: Write, E: Write>(
    alloc: Global,
    words: &[String],
    reader: R,
    output: &mut W,
    errors: &mut E,
) -> u8
    ensures runs { (run : Run) → asked_run (map string_bytes words.now) ≡ Some run
        → RunsWith run R.remaining W.contents reader result (W.contents output.old)
        (W.contents output.new) }
    ensures refused { asked_run (map string_bytes words.now) ≡ None → (result ≡ 2)
        × (output.new ≡ output.old) }
    ensures quiet { result < 2 → errors.new ≡ errors.old }
    ensures usage { result ≡ 2 → BeginsLine (codes "usage: yamltokens events|nodes\n")
        (E.contents errors.old) (E.contents errors.new) }
    ensures failed { result ≡ 3 → BeginsLine (codes "yamltokens: output failed\n")
        (E.contents errors.old) (E.contents errors.new) }
{
    let Some(asked) = asked_run(words) else {
        return refuse_words(errors);
    };
    match run_asked(asked, alloc, reader, output) {
        Outcome::Ended => 0,
        Outcome::Faulted => 1,
        Outcome::OutputFailed => refuse(OUTPUT_FAILED, "yamltokens: output failed\n", errors),
    }
}

/// Makes this run.
fn run_asked<R: BufRead + Drop, W: Write>(
    run: Run,
    alloc: Global,
    reader: R,
    output: &mut W,
) -> Outcome
    ensures { WasOver run R.remaining W.contents reader result (W.contents output.old)
        (W.contents output.new) }
{
    match run {
        Run::Events => run_events(alloc, reader, output),
        Run::Nodes => run_nodes(alloc, reader, output),
    }
}

/// The run that the words ask for, of which there is exactly one.
fn asked_run(words: &[String]) -> Option<Run>
    ensures { result ≡ asked_run (map string_bytes words.now) }
{
    match words {
        [word] => run_of(word.as_str()),
        _ => None,
    }
}

/// The run that a word asks for.
fn run_of(word: &str) -> Option<Run>
    ensures { result ≡ run_of word.now }
{
    match word {
        "events" => Some(Run::Events),
        "nodes" => Some(Run::Nodes),
        _ => None,
    }
}

/// Writes the usage line.
pub fn refuse_words<E: Write>(errors: &mut E) -> u8
    ensures status { result ≡ 2 }
    ensures usage { BeginsLine (codes "usage: yamltokens events|nodes\n")
        (E.contents errors.old) (E.contents errors.new) }
{
    refuse(WRONG_WORDS, "usage: yamltokens events|nodes\n", errors)
}

/// Writes that no memory was found for a buffer.
pub fn no_memory<E: Write>(errors: &mut E) -> u8
    ensures status { result ≡ 3 }
    ensures told { BeginsLine (codes "yamltokens: no memory\n")
        (E.contents errors.old) (E.contents errors.new) }
{
    refuse(OUTPUT_FAILED, "yamltokens: no memory\n", errors)
}

/// Writes a line for the user, and returns the status.
fn refuse<E: Write>(status: u8, line: &str, errors: &mut E) -> u8
    ensures status { result ≡ status }
    ensures told { BeginsLine line.now (E.contents errors.old) (E.contents errors.new) }
{
    tell(line.as_bytes(), errors);
    status
}

/// Writes as much of a line as can be written.
fn tell<E: Write>(line: &[u8], errors: &mut E)
    ensures { BeginsLine line.now (E.contents errors.old) (E.contents errors.new) }
{
    let mut written = 0;
    for _ in 0..MOST_WRITES {
        match errors.write(&line[written..]) {
            Ok(0) => return,
            Ok(more) => written += more,
            Err(error) if error.kind() == ErrorKind::Interrupted => {}
            Err(_) => return,
        }
    }
}
