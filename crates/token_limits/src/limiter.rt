//! The call before each token is handed in.
ghost use Rattle.std.specs.Prelude.{◌≡◌, None, Some};
ghost use Rattle.libyaml_types.specs.Fault.{source_fault};
ghost use Rattle.libyaml_types.specs.Source.{answer_in};
ghost use Rattle.token_limits.specs.Limited.{answer_at, depth_fault, new_limiter, taken};

use libyaml_types::{yaml_mark_t, yaml_source_fault_t, yaml_token_t, yaml_token_type_t};
use std::marker::Model;

/// Passes tokens that nest no deeper than a bound, one after another.
#[derive(Drop)]
pub struct token_limiter_t {
    max_depth: usize,
    /// How many collections are open, of those that a token opened.
    levels: usize,
    /// The start of the token that was refused: each call returns its error.
    pub(crate) refused_at: Option<yaml_mark_t>,
}

impl Model for token_limiter_t {
    ghost use Rattle.std.specs.Prelude.{◌≤◌};
    ghost use Rattle.token_limits.specs.Limited.{Limiter};

    ghost Value = { Limiter };

    ghost view = { λ l. record {
      max_depth = l.max_depth;
      levels = l.levels;
      refused_at = l.refused_at;
    } };

    ghost invariant = { λ l. l.levels ≤ l.max_depth };
}

impl token_limiter_t {
    /// Returns a limiter before the first token: so many collections that a token opens may be open at once.
    pub fn new(max_depth: usize) -> Self
        ensures { result ≡ new_limiter max_depth }
    {
        token_limiter_t {
            max_depth,
            levels: 0,
            refused_at: None,
        }
    }

    /// Asks whether the next token passes. Call it before you hand the token in, and stop at an error.
    ///
    /// # Errors
    ///
    /// The scanner error `found too many levels` at the first token that opens one collection too many, for
    /// good.
    pub fn take(&mut self, token: &yaml_token_t) -> Result<(), yaml_source_fault_t>
        ensures moves { self.new ≡ taken self.old token.now }
        ensures answers { answer_in result token.now ≡ answer_at self.new.refused_at token.now }
    {
        match self.refused_at {
            Some(mark) => Err(too_many_levels(mark)),
            None => self.count(token),
        }
    }

    /// Does what `take` does where no token was refused.
    #[inline(always)]
    pub(crate) fn count(&mut self, token: &yaml_token_t) -> Result<(), yaml_source_fault_t>
        requires { self.old.refused_at ≡ None }
        ensures moves { self.new ≡ taken self.old token.now }
        ensures answers { answer_in result token.now ≡ answer_at self.new.refused_at token.now }
    {
        let levels = self.levels;
        match token.type_() {
            yaml_token_type_t::YAML_BLOCK_SEQUENCE_START_TOKEN
            | yaml_token_type_t::YAML_BLOCK_MAPPING_START_TOKEN
            | yaml_token_type_t::YAML_FLOW_SEQUENCE_START_TOKEN
            | yaml_token_type_t::YAML_FLOW_MAPPING_START_TOKEN => {
                if levels < self.max_depth {
                    self.levels = levels + 1;
                    Ok(())
                } else {
                    Err(self.refuse(token))
                }
            }
            yaml_token_type_t::YAML_BLOCK_END_TOKEN
            | yaml_token_type_t::YAML_FLOW_SEQUENCE_END_TOKEN
            | yaml_token_type_t::YAML_FLOW_MAPPING_END_TOKEN => {
                self.levels = levels.saturating_sub(1);
                Ok(())
            }
            _ => Ok(()),
        }
    }

    /// Refuses a token, and keeps its error.
    #[cold]
    #[inline(never)]
    fn refuse(&mut self, token: &yaml_token_t) -> yaml_source_fault_t
        ensures refused { self.new ≡ record self.old { refused_at = Some token.now.start_mark } }
        ensures fault { source_fault result ≡ depth_fault token.now.start_mark }
    {
        self.refused_at = Some(token.start_mark);
        too_many_levels(token.start_mark)
    }
}

/// Returns the error of a token that opens one collection too many.
#[cold]
#[inline(never)]
pub(crate) fn too_many_levels(mark: yaml_mark_t) -> yaml_source_fault_t
    ensures { source_fault result ≡ depth_fault mark }
{
    yaml_source_fault_t::scanner_error("found too many levels", mark)
}
