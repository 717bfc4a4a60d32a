//! The source: what it keeps, what it says of itself, and its tokens.

ghost use Rattle.std.specs.Prelude.{◌≡◌, ◌≢◌, None, Some, Err, [], IfErr, IfOk, length};
ghost use Rattle.std.specs.Prelude.{option_map};
ghost use Rattle.unsafe_libyaml.specs.Fault.{memory_fault, source_fault};
ghost use Rattle.unsafe_libyaml.specs.VectorNotation.{place};
ghost use Rattle.unsafe_libyaml.specs.Source.{coming};
ghost use Rattle.example_theorems.specs.Letters.{LettersGive, all_tokens, letter_content, letter_token_at};
ghost use Rattle.example_theorems.specs.LettersLaws.{letters_fall, letters_follow, letters_repeat};

use std::alloc::Global;
use std::marker::Model;
use unsafe_libyaml::{
    YAML_PLAIN_SCALAR_STYLE, YAML_UTF8_ENCODING, unnamed_yaml_token_t_data, yaml_mark_t,
    yaml_refusal_t, yaml_source_fault_t, yaml_token_source_t, yaml_token_t,
};

/// The tokens of a text of brackets, commas and letters: each character is a token.
#[derive(Drop)]
pub struct Letters<'a> {
    alloc: Global,
    text: &'a [u8],
    /// The place of the next character, or `None` before the first token.
    next: Option<usize>,
    /// The error that each call returns once the tokens have ended.
    fault: Option<yaml_source_fault_t>,
}

impl<'a> Model for Letters<'a> {
    ghost use Rattle.std.specs.Prelude.{option_map};
    ghost use Rattle.unsafe_libyaml.specs.Fault.{source_fault};
    ghost use Rattle.unsafe_libyaml.specs.Source.{Coming};
    ghost use Rattle.example_theorems.specs.Letters.{letters_coming};

    ghost Value = { Coming };

    ghost view = { λ s. letters_coming s.text.now s.next (option_map source_fault s.fault) };
}

impl<'a> Letters<'a> {
    /// Returns the source of this text's tokens. Takes no memory.
    pub fn new(alloc: Global, text: &'a [u8]) -> Self
        ensures { result ≡ all_tokens text.now }
    {
        Letters {
            alloc,
            text,
            next: None,
            fault: None,
        }
    }

    /// Ends the tokens by this error.
    fn end(&mut self, fault: yaml_source_fault_t) -> Result<yaml_token_t, yaml_source_fault_t>
        ensures fault { result ≡ Err fault }
        ensures for_good { self.new ≡ coming [] (source_fault fault) }
    {
        self.fault = Some(fault);
        Err(fault)
    }
}

impl<'a> yaml_token_source_t for Letters<'a> {
    ghost bound = { λ s. length s.tokens };

    ghost gives = { LettersGive };

    ghost known = { λ s. Some s };

    ghost may_break = { λ _ fault. fault ≡ memory_fault };

    ghost falls = { letters_fall };

    ghost follows = { letters_follow };

    ghost repeats = { letters_repeat };

    fn next_token(&mut self) -> Result<yaml_token_t, yaml_source_fault_t> {
        if let Some(fault) = self.fault {
            return Err(fault);
        }
        let Some(place) = self.next else {
            self.next = Some(0);
            return Ok(yaml_token_t::stream_start(YAML_UTF8_ENCODING, mark(0), mark(0)));
        };
        let Some(character) = self.text.get(place) else {
            self.fault = Some(yaml_source_fault_t::scanner_error("text ended", mark(place)));
            let end = unnamed_yaml_token_t_data::StreamEnd;
            return Ok(yaml_token_t::new(end, mark(place), mark(place)));
        };
        match letter_token(self.alloc, *character, place) {
            Ok(Some(token)) => {
                self.next = Some(place + 1);
                Ok(token)
            }
            Ok(None) => self.end(yaml_source_fault_t::scanner_error("found no token", mark(place))),
            Err(_) => self.end(yaml_source_fault_t::out_of_memory()),
        }
    }
}

/// Returns a character's token at its place, or `None` for a character that is no token.
///
/// # Errors
///
/// Out of memory, for a character that is a token.
fn letter_token(
    alloc: Global,
    character: u8,
    place: usize,
) -> Result<Option<yaml_token_t>, yaml_refusal_t>
    ensures ok { IfOk result (λ found. found ≡ option_map (letter_token_at place)
        (letter_content character)) }
    ensures err { IfErr result (λ _. letter_content character ≢ None) }
{
    use unnamed_yaml_token_t_data::{FlowEntry, FlowSequenceEnd, FlowSequenceStart};
    let at = mark(place);
    Ok(match character {
        b'[' => Some(yaml_token_t::new(FlowSequenceStart, at, at)),
        b']' => Some(yaml_token_t::new(FlowSequenceEnd, at, at)),
        b',' => Some(yaml_token_t::new(FlowEntry, at, at)),
        letter if letter.is_ascii_alphabetic() => {
            Some(yaml_token_t::scalar(alloc, &[letter], YAML_PLAIN_SCALAR_STYLE, at, at)?)
        }
        _ => None,
    })
}

/// Returns the mark of a place in the text.
fn mark(index: usize) -> yaml_mark_t
    ensures { result ≡ place index }
{
    let index = index as u64;
    yaml_mark_t {
        index,
        line: 0,
        column: index,
    }
}
