//! The trait of a source of tokens.
ghost use Rattle.std.specs.Prelude.{◌≡◌, ℕ, ◌+◌, Option, Ok, Err};
ghost use Rattle.libyaml_types.specs.declared.token.yaml_token_t.{yaml_token_t};
ghost use Rattle.libyaml_types.specs.Fault.{Fault, SourceResult, answer_of};
ghost use Rattle.libyaml_types.specs.Source.{Coming, Follows, answer_in};

use crate::fault::yaml_source_fault_t;
use crate::yaml_token_t;

/// A source of tokens, which ends by an error.
///
/// Of the seven ghost items the first four say what the source does, and the last three are proofs of it. A
/// program that `rt try` runs may leave each as a hole, `{ ? }`.
pub trait yaml_token_source_t {
    /// How many tokens may still come. Each token lowers it by exactly one, which `falls` proves.
    ghost bound: { Self → ℕ };

    /// What a call may do: the source before it, its result, and the source after it. This is the contract of
    /// `next_token`.
    ghost gives: { Self → SourceResult → Self → Type 0 };

    /// The tokens to come and the error after them, or `None` if the source does not know them in advance.
    ghost known: { Self → Option Coming };

    /// The errors with which the source may end before the list of `known` does, for example when its input
    /// fails or memory runs out. The source is the one after that call.
    ghost may_break: { Self → Fault → Type 0 };

    /// Returns the next token.
    ///
    /// # Errors
    ///
    /// The error that ends the tokens; each later call returns it again.
    fn next_token(&mut self) -> Result<yaml_token_t, yaml_source_fault_t>
        ensures { gives self.old (answer_of result) self.new };

    /// Puts the next token into the caller's variable; after an error its value is unspecified.
    ///
    /// # Errors
    ///
    /// Those of `next_token`.
    fn next_token_into(&mut self, token: &mut yaml_token_t) -> Result<(), yaml_source_fault_t>
        ensures { gives self.old (answer_in result token.new) self.new }
    {
        match self.next_token() {
            Ok(next) => {
                *token = next;
                Ok(())
            }
            Err(fault) => Err(fault),
        }
    }

    /// Returns whether the next call may block, so callers flush output first. It does not affect the tokens.
    fn may_wait(&self) -> bool {
        false
    }

    /// A proof that each token lowers the bound by exactly one.
    ghost falls: { (s t : Self) (token : yaml_token_t) → gives s (Ok token) t → bound s ≡ bound t + 1 };

    /// A proof that each result agrees with `known`: it is the next token of that list, or the error of the
    /// list if no token is left, or an error of `may_break`, after which no token is left. If `known` is
    /// `None` there is nothing to prove: `λ s t answer h. tt`.
    ghost follows: { (s t : Self) (answer : SourceResult) → gives s answer t
        → Follows (may_break t) (known s) answer (known t) };

    /// A proof that after an error each later call returns that error again.
    ghost repeats: { (s t u : Self) (fault : Fault) (answer : SourceResult) → gives s (Err fault) t
        → gives t answer u → answer ≡ Err fault };
}
