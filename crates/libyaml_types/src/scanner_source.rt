//! A source over a scanner.
ghost use Rattle.std.specs.Prelude.{◌≡◌, ◌-◌, None, Some};
ghost use Rattle.libyaml_types.specs.Fault.{source_fault};
ghost use Rattle.libyaml_types.specs.Events.{zero_mark};
ghost use Rattle.libyaml_types.specs.Scanned.{ScannerGives, too_many_tokens};
ghost use Rattle.libyaml_types.specs.ScannedLaws.{scanned_falls, scanned_repeats};

use crate::scanner::yaml_scanner_t;
use crate::{
    ZERO_MARK, yaml_error_type_t, yaml_mark_t, yaml_source_fault_t, yaml_token_source_t,
    yaml_token_t,
};
use std::marker::Model;

/// The tokens of a scanner up to a bound, and from then on its error, or `too many tokens`.
#[derive(Drop)]
pub struct yaml_scanner_source_t<S> {
    scanner: S,
    given: u64,
    max_tokens: u64,
    /// Where the last token ends, or zeros before the first.
    end: yaml_mark_t,
    /// The error that each call returns once the tokens have ended.
    fault: Option<yaml_source_fault_t>,
}

impl<S> Model for yaml_scanner_source_t<S> {
    ghost use Rattle.std.specs.Prelude.{option_map};
    ghost use Rattle.libyaml_types.specs.Fault.{source_fault};
    ghost use Rattle.libyaml_types.specs.Scanned.{Scanned};

    ghost Value = { Scanned S };

    ghost view = { λ s. record {
      scanner = s.scanner;
      given = s.given;
      max_tokens = s.max_tokens;
      end = s.end;
      fault = option_map source_fault s.fault;
    } };
}

impl<S> yaml_scanner_source_t<S> {
    /// Returns a source that gives `max_tokens` tokens at most. Takes no memory.
    pub fn new(scanner: S, max_tokens: u64) -> Self
        ensures { result ≡ record {
          scanner = scanner;
          given = 0;
          max_tokens = max_tokens;
          end = zero_mark;
          fault = None;
        } }
    {
        yaml_scanner_source_t {
            scanner,
            given: 0,
            max_tokens,
            end: ZERO_MARK,
            fault: None,
        }
    }

    /// Returns the scanner in its state after the last call. Takes no memory.
    pub fn into_scanner(self) -> S
        ensures { result ≡ self.scanner }
    {
        let yaml_scanner_source_t { scanner, .. } = self;
        scanner
    }

    /// Keeps an error for good, and returns it.
    fn keep(&mut self, fault: yaml_source_fault_t) -> yaml_source_fault_t
        ensures fault { result ≡ fault }
        ensures kept { self.new ≡ record self.old { fault = Some (source_fault fault) } }
    {
        self.fault = Some(fault);
        fault
    }
}

impl<S: yaml_scanner_t> yaml_token_source_t for yaml_scanner_source_t<S> {
    ghost bound = { λ s. s.max_tokens - s.given };

    ghost gives = { ScannerGives S.scans };

    ghost known = { λ _. None };

    ghost may_break = { λ _ _. ⊥ };

    ghost falls = { scanned_falls S.scans };

    ghost follows = { λ s t answer h. tt };

    ghost repeats = { scanned_repeats S.scans };

    /// Returns the scanner's next token, with no call of the scanner after an error.
    ///
    /// # Errors
    ///
    /// The error of an earlier call again; `too many tokens`, a reader error at the end of the last token,
    /// after `max_tokens` of them; the scanner's.
    fn next_token(&mut self) -> Result<yaml_token_t, yaml_source_fault_t> {
        if let Some(fault) = self.fault {
            return Err(fault);
        }
        if self.given >= self.max_tokens {
            return Err(self.keep(too_many_tokens(self.given, self.end)));
        }
        match self.scanner.scan() {
            Ok(token) => {
                self.given += 1;
                self.end = token.end_mark;
                Ok(token)
            }
            Err(fault) => Err(self.keep(fault)),
        }
    }

    /// Puts the token that `next_token` would return into `token`.
    fn next_token_into(&mut self, token: &mut yaml_token_t) -> Result<(), yaml_source_fault_t> {
        *token = self.next_token()?;
        Ok(())
    }

    /// Returns what the scanner's `may_wait` does.
    fn may_wait(&self) -> bool {
        self.scanner.may_wait()
    }
}

/// Returns the error of a scanner that has given all the tokens that it may.
fn too_many_tokens(given: u64, end: yaml_mark_t) -> yaml_source_fault_t
    ensures { source_fault result ≡ too_many_tokens given end }
{
    let error = yaml_error_type_t::YAML_READER_ERROR;
    let problem = Some("too many tokens");
    yaml_source_fault_t::new(error, problem, given, -1, end, None, ZERO_MARK)
}
