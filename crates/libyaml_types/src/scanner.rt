//! The trait of a scanner.
ghost use Rattle.libyaml_types.specs.Fault.{SourceResult, answer_of};

use crate::{yaml_source_fault_t, yaml_token_t};

/// A scanner, whose tokens `yaml_scanner_source_t` gives to a parser. An implementation needs only `scan`.
pub trait yaml_scanner_t {
    /// What a call may do: the scanner before it, its result, and the scanner after it. An implementation
    /// that leaves this out says nothing of its tokens.
    ghost scans: { Self → SourceResult → Self → Type 0 } = { λ _ _ _. Unit {0} };

    /// Returns the next token. The source does not call it again after an error.
    ///
    /// libyaml: `yaml_parser_scan`.
    ///
    /// # Errors
    ///
    /// The error that ends the tokens.
    fn scan(&mut self) -> Result<yaml_token_t, yaml_source_fault_t>
        ensures { scans self.old (answer_of result) self.new };

    /// Returns whether the next call may block, so callers flush output first. It does not affect the tokens.
    fn may_wait(&self) -> bool {
        false
    }
}
