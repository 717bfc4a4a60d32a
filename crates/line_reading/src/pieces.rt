//! A text cut at a byte.
ghost use Rattle.std.specs.Prelude.{◌≡◌, ◌==◌, [], ◌∷◌, MatchOption, option_copied};
ghost use Rattle.std.specs.List.{slice_split};
ghost use Rattle.line_reading.specs.tokens.Prefixes.{before_byte, after_byte};
ghost use Rattle.line_reading.specs.tokens.Pieces.{pieces_of};

use crate::search::len_before;
use std::marker::Model;

/// The pieces of a text between the occurrences of one byte. Contracts see those that are still to be taken.
#[derive(Drop)]
pub(crate) struct Pieces<'a> {
    rest: Option<&'a [u8]>,
    separator: u8,
}

impl<'a> Model for Pieces<'a> {
    ghost use Rattle.std.specs.Prelude.{ℕ, List, option_copied};
    ghost use Rattle.line_reading.specs.tokens.Pieces.{pieces_of};

    ghost Value = { List (List ℕ) };

    ghost view = { λ p. pieces_of p.separator (option_copied p.rest) };
}

impl<'a> Pieces<'a> {
    /// Returns the pieces of `text` between the occurrences of `separator`: one at least.
    pub(crate) fn new(text: &'a [u8], separator: u8) -> Self
        ensures { result ≡ slice_split (λ b. b == separator) text.now }
    {
        Pieces {
            rest: Some(text),
            separator,
        }
    }

    /// Returns the pieces of `rest`; none if it is `None`.
    pub(crate) fn behind(rest: Option<&'a [u8]>, separator: u8) -> Self
        ensures { result ≡ pieces_of separator (option_copied rest.entry) }
    {
        Pieces { rest, separator }
    }

    /// Takes the next piece and returns it.
    pub(crate) fn next(&mut self) -> Option<&'a [u8]>
        ensures { MatchOption result ((self.old ≡ [])
            × (self.new ≡ [])) (λ piece. self.old ≡ piece.now ∷ self.new) }
    {
        let (piece, rest) = cut(self.rest?, self.separator);
        self.rest = rest;
        Some(piece)
    }
}

/// Returns the bytes before the first `separator`, and those after it, if it is there.
fn cut(text: &[u8], separator: u8) -> (&[u8], Option<&[u8]>)
    ensures before { result.0.now ≡ before_byte separator text.now }
    ensures behind { option_copied result.1 ≡ after_byte separator text.now }
{
    let len = len_before(text, separator);
    if len < text.len() {
        (&text[..len], Some(&text[len + 1..]))
    } else {
        (text, None)
    }
}
