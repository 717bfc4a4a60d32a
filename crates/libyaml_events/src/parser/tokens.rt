//! The next token: that of lookahead, or else the source's.
ghost use Rattle.std.specs.Prelude.{◌≡◌, Ok, Err, None, MatchResult, IfErr, true, false};
ghost use Rattle.libyaml_types.specs.Errors.{IsSourceError};
ghost use Rattle.libyaml_events.specs.machine.Config.{with_fault, is_fault, token_if};
ghost use Rattle.libyaml_events.specs.sources.Calls.{Fetches};

use crate::lookahead::Lookahead;
use crate::parser::TokenParser;
use libyaml_types::{yaml_error_type_t, yaml_token_source_t, yaml_token_t};

impl TokenParser {
    /// Asks the source for a token. An error of the source is kept for good.
    #[inline(always)]
    #[tactic(auto, using(crate::proofs::code::SourceErrors::source_error_is_fault))]
    pub(crate) fn ask_source<S: yaml_token_source_t>(
        &mut self,
        source: &mut S,
        token: &mut yaml_token_t,
    ) -> Result<(), yaml_error_type_t>
        ensures fetches { MatchResult result
            (λ _. Fetches S.gives None source.old self.old (Ok token.new) source.new self.new)
            (λ e. Fetches S.gives None source.old self.old (Err e) source.new self.new) }
        ensures error { IfErr result (λ e. is_fault e ≡ true) }
    {
        match source.next_token_into(token) {
            Ok(()) => Ok(()),
            Err(fault) => {
                self.prefix = fault.prefix();
                Err(fault.error())
            }
        }
    }

    /// Puts the call's first token into `lookahead`: the one that stays there, or else the source's. For a
    /// further token the loop calls `ask_source`: to ask at each token whether one stays takes 1 in 100
    /// instructions more.
    pub(crate) fn next_token<S: yaml_token_source_t>(
        &mut self,
        source: &mut S,
        lookahead: &mut Lookahead,
    ) -> Result<(), yaml_error_type_t>
        ensures fetches { MatchResult result
            (λ _. Fetches S.gives (token_if lookahead.old.stays lookahead.old.token) source.old self.old
            (Ok lookahead.new.token) source.new self.new)
            (λ e. Fetches S.gives (token_if lookahead.old.stays lookahead.old.token) source.old self.old (Err e)
            source.new self.new) }
        ensures taken { lookahead.new.stays ≡ false }
        ensures error { IfErr result (λ e. is_fault e ≡ true) }
    {
        if lookahead.stays {
            lookahead.stays = false;
            return Ok(());
        }
        self.ask_source(source, &mut lookahead.token)
    }
}
