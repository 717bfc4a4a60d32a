//! A scanner of `key=value` lines.

use std::alloc::Global;
use std::str::Lines;
use unsafe_libyaml::{
    YAML_PLAIN_SCALAR_STYLE, YAML_UTF8_ENCODING, ZERO_MARK, unnamed_yaml_token_t_data, yaml_mark_t,
    yaml_scanner_t, yaml_source_fault_t, yaml_token_t,
};

/// What comes next.
#[derive(Copy, Clone)]
enum Next<'a> {
    StreamStart,
    MappingStart,
    /// The KEY of the next line, or the end of the mapping.
    Line,
    /// A key and its value.
    Key(&'a str, &'a str),
    /// The VALUE before this value.
    Separator(&'a str),
    Value(&'a str),
    StreamEnd,
}

/// The tokens of a text of `key=value` lines: one mapping.
#[derive(Drop)]
pub struct Pairs<'a> {
    alloc: Global,
    lines: Lines<'a>,
    /// The place of the next token.
    mark: yaml_mark_t,
    next: Next<'a>,
}

impl<'a> Pairs<'a> {
    /// Returns the scanner of this text. Takes no memory.
    pub fn new(alloc: Global, text: &'a str) -> Self {
        Pairs {
            alloc,
            lines: text.lines(),
            mark: ZERO_MARK,
            next: Next::StreamStart,
        }
    }

    /// Returns a plain scalar, and goes on to the place after its text.
    fn scalar(&mut self, text: &str) -> Result<yaml_token_t, yaml_source_fault_t> {
        let place = self.mark;
        self.advance(text.chars().count() as u64);
        let style = YAML_PLAIN_SCALAR_STYLE;
        yaml_token_t::scalar(self.alloc, text.as_bytes(), style, place, place).map_err(
            |_| yaml_source_fault_t::out_of_memory(),
        )
    }

    /// Goes on by so many characters of the line.
    fn advance(&mut self, characters: u64) {
        self.mark.index = self.mark.index.saturating_add(characters);
        self.mark.column = self.mark.column.saturating_add(characters);
    }

    /// Goes on to the next line.
    fn advance_line(&mut self) {
        self.mark.index = self.mark.index.saturating_add(1);
        self.mark.line = self.mark.line.saturating_add(1);
        self.mark.column = 0;
    }
}

impl<'a> yaml_scanner_t for Pairs<'a> {
    fn scan(&mut self) -> Result<yaml_token_t, yaml_source_fault_t> {
        use unnamed_yaml_token_t_data::{BlockEnd, BlockMappingStart, Key, StreamEnd, Value};
        let place = self.mark;
        let (token, next) = match self.next {
            Next::StreamStart => {
                let start = yaml_token_t::stream_start(YAML_UTF8_ENCODING, place, place);
                (start, Next::MappingStart)
            }
            Next::MappingStart => (at(place, BlockMappingStart), Next::Line),
            Next::Line => match self.lines.next() {
                Some(line) => (at(place, Key), pair(line, place)?),
                None => (at(place, BlockEnd), Next::StreamEnd),
            },
            Next::Key(key, value) => (self.scalar(key)?, Next::Separator(value)),
            Next::Separator(value) => {
                self.advance(1);
                (at(place, Value), Next::Value(value))
            }
            Next::Value(value) => {
                let token = self.scalar(value)?;
                self.advance_line();
                (token, Next::Line)
            }
            Next::StreamEnd => (at(place, StreamEnd), Next::StreamEnd),
        };
        self.next = next;
        Ok(token)
    }
}

/// Returns the key and the value of a line.
///
/// # Errors
///
/// Expected `=`, if the line has none.
fn pair<'a>(line: &'a str, place: yaml_mark_t) -> Result<Next<'a>, yaml_source_fault_t> {
    match line.split_once('=') {
        Some((key, value)) => Ok(Next::Key(key, value)),
        None => Err(yaml_source_fault_t::scanner_error("expected `=`", place)),
    }
}

/// Returns a token without fields at this place.
fn at(place: yaml_mark_t, content: unnamed_yaml_token_t_data) -> yaml_token_t {
    yaml_token_t::new(content, place, place)
}
