//! A source of tokens over the lines of a reader.
ghost use Rattle.std.specs.Prelude.{◌≡◌, ◌+◌, ◌-◌, IfOk, IfSome, Some, None, Err};
ghost use Rattle.libyaml_types.specs.Fault.{answer_of, source_fault};
ghost use Rattle.libyaml_types.specs.Source.{answer_in};
ghost use Rattle.line_reading.specs.sources.LineSource.{Gives, known_of, BreaksOff};
ghost use Rattle.line_reading.specs.sources.LineSourceLaws.{source_falls, source_follows, source_repeats};
ghost use Rattle.line_reading.specs.sources.ReadLines.{longest_line, read_lines};
ghost use Rattle.line_reading.specs.sources.NextLine.{TakesAtMost, IsAfterLine, IsWithinLine};
ghost use Rattle.line_reading.specs.sources.LineFault.{line_fault};
ghost use Rattle.line_reading.specs.declared.line_problem.LineProblem.TheVariants.{BadTokenLine, LineTooLong};

use crate::line::read_next;
use crate::line_problem::LineProblem;
use libyaml_types::{
    ZERO_MARK, unnamed_yaml_token_t_data, yaml_source_fault_t, yaml_token_source_t, yaml_token_t,
};
use std::alloc::Global;
use std::io::BufRead;
use std::marker::Model;

/// The tokens of a reader's lines, and from then on its error.
///
/// Each call reads one line, and no byte after it and its LF.
#[derive(Drop)]
pub struct yaml_line_source_t<R> {
    reader: R,
    given: u64,
    max_tokens: u64,
    problem: Option<LineProblem>,
    /// How many bytes were in the reader's buffer after the last line.
    left: usize,
    line: Vec<u8>,
    alloc: Global,
}

/// Fewer bytes than these after a line may hold no token that brings an event: a read may follow, and wait.
const FEW_BYTES: usize = 1024;

impl<R> Model for yaml_line_source_t<R> {
    ghost use Rattle.line_reading.specs.sources.LineSource.{LineSource, source_at};

    ghost Value = { LineSource R };

    ghost view = { λ s. source_at s.reader s.given s.max_tokens s.problem };
}

impl<R: BufRead> yaml_line_source_t<R> {
    /// Returns a source that gives `max_tokens` tokens at most. Takes no memory.
    pub fn new(alloc: Global, reader: R, max_tokens: u64) -> Self
        ensures value { result ≡ record {
          reader = reader;
          given = 0;
          max_tokens = max_tokens;
          fault
              = None;
        } }
        ensures reads { IfSome (R.remaining reader) (λ bytes. known_of R.remaining result
            ≡ Some (read_lines bytes max_tokens)) }
    {
        yaml_line_source_t {
            reader,
            given: 0,
            max_tokens,
            problem: None,
            left: 0,
            line: Vec::new(alloc),
            alloc,
        }
    }

    /// Returns the reader in its state after the last call. Takes no memory.
    pub fn into_reader(self) -> R
        ensures { result ≡ self.reader }
    {
        let yaml_line_source_t { reader, .. } = self;
        reader
    }

    /// Keeps a problem for good, and returns it as an error.
    fn keep(&mut self, problem: LineProblem) -> yaml_source_fault_t
        ensures fault { source_fault result ≡ line_fault problem self.old.given }
        ensures kept { self.new ≡ record self.old { fault = Some (line_fault problem self.old.given) } }
    {
        self.problem = Some(problem);
        problem.fault(self.given)
    }
}

impl<R: BufRead> yaml_token_source_t for yaml_line_source_t<R> {
    ghost bound = { λ s. s.max_tokens - s.given };

    ghost gives = { Gives R.remaining };

    ghost known = { known_of R.remaining };

    ghost may_break = { BreaksOff };

    ghost falls = { source_falls R.remaining };

    ghost follows = { source_follows R.remaining };

    ghost repeats = { source_repeats R.remaining };

    /// Returns the token of the next line.
    ///
    /// # Errors
    ///
    /// Why there is none. A kept error is returned again; then `too many tokens` comes before a line is read.
    fn next_token(&mut self) -> Result<yaml_token_t, yaml_source_fault_t>
        ensures gives { Gives R.remaining self.old (answer_of result) self.new }
        ensures leaves { IfOk result (λ _. IsAfterLine (R.remaining self.old.reader)
            (R.remaining self.new.reader)) }
        ensures bad_line { self.old.fault ≡ None
            → answer_of result ≡ Err (line_fault BadTokenLine self.old.given)
            → IsAfterLine (R.remaining self.old.reader) (R.remaining self.new.reader) }
        ensures too_long { self.old.fault ≡ None
            → answer_of result ≡ Err (line_fault LineTooLong self.old.given)
            → IsWithinLine (longest_line + 1) (R.remaining self.old.reader)
            (R.remaining self.new.reader) }
        ensures takes { TakesAtMost (longest_line + 1) (R.remaining self.old.reader)
            (R.remaining self.new.reader) }
    {
        let mut token = yaml_token_t::new(unnamed_yaml_token_t_data::NoToken, ZERO_MARK, ZERO_MARK);
        self.next_token_into(&mut token)?;
        Ok(token)
    }

    /// Puts the token of the next line straight into `token`; after an error its value is unspecified.
    ///
    /// A line that lies whole in the reader's buffer, with its LF, is read there; any other is copied first.
    #[inline(always)]
    fn next_token_into(&mut self, token: &mut yaml_token_t) -> Result<(), yaml_source_fault_t>
        ensures gives { Gives R.remaining self.old (answer_in result token.new) self.new }
        ensures leaves { IfOk result (λ _. IsAfterLine (R.remaining self.old.reader)
            (R.remaining self.new.reader)) }
        ensures bad_line { self.old.fault ≡ None
            → answer_in result token.new ≡ Err (line_fault BadTokenLine self.old.given)
            → IsAfterLine (R.remaining self.old.reader) (R.remaining self.new.reader) }
        ensures too_long { self.old.fault ≡ None
            → answer_in result token.new ≡ Err (line_fault LineTooLong self.old.given)
            → IsWithinLine (longest_line + 1) (R.remaining self.old.reader)
            (R.remaining self.new.reader) }
        ensures takes { TakesAtMost (longest_line + 1) (R.remaining self.old.reader)
            (R.remaining self.new.reader) }
    {
        if let Some(problem) = self.problem {
            return Err(problem.fault(self.given));
        }
        if self.given >= self.max_tokens {
            return Err(self.keep(LineProblem::TooManyTokens));
        }
        let (reader, line, left) = (&mut self.reader, &mut self.line, &mut self.left);
        if let Err(problem) = read_next(self.alloc, reader, line, left, token) {
            return Err(self.keep(problem));
        }
        self.given += 1;
        Ok(())
    }

    /// Returns whether fewer than 1,024 bytes are in the reader's buffer after the last line.
    fn may_wait(&self) -> bool {
        self.left < FEW_BYTES
    }
}
