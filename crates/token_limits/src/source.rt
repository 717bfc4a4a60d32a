//! A source within a bound on depth.
ghost use Rattle.std.specs.Prelude.{◌≡◌};
ghost use Rattle.token_limits.specs.Limited.{LimitedGives, known_within, new_limiter};
ghost use Rattle.token_limits.specs.LimitedLaws.{limited_falls, limited_follows, limited_repeats};

use crate::limiter::{token_limiter_t, too_many_levels};
use libyaml_types::{
    ZERO_MARK, unnamed_yaml_token_t_data, yaml_source_fault_t, yaml_token_source_t, yaml_token_t,
};
use std::marker::Model;

/// The tokens of a source up to the first that opens one collection too many, and from then on its error.
#[derive(Drop)]
pub struct yaml_limited_source_t<S> {
    source: S,
    limiter: token_limiter_t,
}

impl<S> Model for yaml_limited_source_t<S> {
    ghost use Rattle.token_limits.specs.Limited.{Limited};

    ghost Value = { Limited S };

    ghost view = { λ s. record {
      source = s.source;
      limiter = s.limiter;
    } };
}

impl<S> yaml_limited_source_t<S> {
    /// Returns a source of the tokens that this one still gives, with at most so many collections open at
    /// once that they open.
    pub fn new(source: S, max_depth: usize) -> Self
        ensures { result ≡ record {
          source = source;
          limiter = new_limiter max_depth;
        } }
    {
        yaml_limited_source_t {
            source,
            limiter: token_limiter_t::new(max_depth),
        }
    }

    /// Returns the source in its state after the last call.
    pub fn into_source(self) -> S
        ensures { result ≡ self.source }
    {
        self.source
    }
}

impl<S: yaml_token_source_t> yaml_token_source_t for yaml_limited_source_t<S> {
    ghost bound = { λ s. S.bound s.source };

    ghost gives = { LimitedGives S.gives };

    ghost known = { λ s. known_within s.limiter (S.known s.source) };

    ghost may_break = { λ s. S.may_break s.source };

    ghost falls = { limited_falls S.gives S.bound S.falls };

    ghost follows = { limited_follows S.gives S.known S.may_break S.follows };

    ghost repeats = { limited_repeats S.gives S.repeats };

    /// Returns the source's next token. Once a token was refused the source isn't asked again.
    ///
    /// # Errors
    ///
    /// The source's; or the scanner error `found too many levels`.
    fn next_token(&mut self) -> Result<yaml_token_t, yaml_source_fault_t> {
        let mut token = yaml_token_t::new(unnamed_yaml_token_t_data::NoToken, ZERO_MARK, ZERO_MARK);
        self.next_token_into(&mut token)?;
        Ok(token)
    }

    /// Puts the token that `next_token` would return into `token`.
    #[inline(always)]
    fn next_token_into(&mut self, token: &mut yaml_token_t) -> Result<(), yaml_source_fault_t> {
        match self.limiter.refused_at {
            Some(mark) => Err(too_many_levels(mark)),
            None => {
                self.source.next_token_into(token)?;
                self.limiter.count(token)
            }
        }
    }

    /// Returns what the source's `may_wait` does.
    fn may_wait(&self) -> bool {
        self.source.may_wait()
    }
}
