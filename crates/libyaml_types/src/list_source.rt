//! A source over a list.
ghost use Rattle.std.specs.Prelude.{◌≡◌, List, length, Some};
ghost use Rattle.libyaml_types.specs.Fault.{source_fault};
ghost use Rattle.libyaml_types.specs.Source.{coming, list_answer, no_more_tokens, rest_of_list};
ghost use Rattle.libyaml_types.specs.ListLaws.{list_falls, list_follows, list_repeats};

use crate::fault::yaml_source_fault_t;
use crate::source::yaml_token_source_t;
use crate::{ZERO_MARK, yaml_error_type_t, yaml_token_t};
use std::marker::Model;
use std::vec::IntoIter;

/// A source that gives the tokens of a list, and from then on returns its error.
#[derive(Drop)]
pub struct yaml_list_source_t {
    tokens: IntoIter<yaml_token_t>,
    fault: yaml_source_fault_t,
}

impl Model for yaml_list_source_t {
    ghost use Rattle.std.specs.Vec.Iter.{into_iter_items};
    ghost use Rattle.libyaml_types.specs.Fault.{source_fault};
    ghost use Rattle.libyaml_types.specs.Source.{Coming};

    ghost Value = { Coming };

    ghost view = { λ s. record { tokens = into_iter_items s.tokens; fault = source_fault s.fault } };
}

impl yaml_list_source_t {
    /// Returns a source of these tokens, and of this error after the last of them. Takes no memory.
    pub fn new(tokens: Vec<yaml_token_t>, fault: yaml_source_fault_t) -> Self
        ensures { result ≡ coming tokens.items (source_fault fault) }
    {
        yaml_list_source_t {
            tokens: tokens.into_iter(),
            fault,
        }
    }
}

/// The source of a whole list: after STREAM-END a parser asks for no token. After a list without STREAM-END
/// the source returns the reader error `no more tokens`.
impl From<Vec<yaml_token_t>> for yaml_list_source_t {
    ghost from_gives = { λ tokens source. source ≡ coming tokens.items no_more_tokens };

    fn from(tokens: Vec<yaml_token_t>) -> Self {
        yaml_list_source_t::new(tokens, no_more_tokens())
    }
}

/// Returns the error of a list that ends before its STREAM-END.
fn no_more_tokens() -> yaml_source_fault_t
    ensures { source_fault result ≡ no_more_tokens }
{
    let error = yaml_error_type_t::YAML_READER_ERROR;
    let problem = Some("no more tokens");
    yaml_source_fault_t::new(error, problem, 0, -1, ZERO_MARK, None, ZERO_MARK)
}

impl yaml_token_source_t for yaml_list_source_t {
    ghost bound = { λ s. length s.tokens };

    ghost gives = { λ s answer t. (answer ≡ list_answer s.tokens s.fault)
        × (t ≡ coming (rest_of_list s.tokens) s.fault) };

    ghost known = { λ s. Some s };

    ghost may_break = { λ _ _. ⊥ };

    ghost falls = { list_falls };

    ghost follows = { λ s t answer h. list_follows (λ _. ⊥) s t answer h };

    ghost repeats = { list_repeats };

    fn next_token(&mut self) -> Result<yaml_token_t, yaml_source_fault_t> {
        match self.tokens.next() {
            Some(token) => Ok(token),
            None => Err(self.fault),
        }
    }

    #[inline(always)]
    fn next_token_into(&mut self, token: &mut yaml_token_t) -> Result<(), yaml_source_fault_t> {
        let Some(next) = self.tokens.next() else {
            return Err(self.fault);
        };
        *token = next;
        Ok(())
    }
}
