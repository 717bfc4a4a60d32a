//! Scanners: of token lines, and of lists that grow by a number n.

use std::alloc::{AllocError, Global};
use token_lines::yaml_line_source_t;
use unsafe_libyaml::{
    YAML_READER_ERROR, ZERO_MARK, yaml_mark_t, yaml_scanner_t, yaml_source_fault_t,
    yaml_token_source_t, yaml_token_t,
};

/// Returns the token of a line.
fn token_of(alloc: Global, line: &str) -> Result<yaml_token_t, yaml_source_fault_t> {
    yaml_line_source_t::new(alloc, line.as_bytes(), 1).next_token()
}

/// The error where so many tokens end.
fn end_of(tokens: u64) -> yaml_source_fault_t {
    let at = yaml_mark_t {
        index: tokens,
        line: tokens,
        column: 0,
    };
    yaml_source_fault_t::new(
        YAML_READER_ERROR,
        Some("no more tokens"),
        tokens,
        -1,
        at,
        None,
        ZERO_MARK,
    )
}

/// The tokens of lines.
#[derive(Drop)]
pub struct Lines<'a> {
    alloc: Global,
    rest: &'a str,
    place: u64,
}

impl<'a> Lines<'a> {
    pub fn new(alloc: Global, lines: &'a str) -> Self {
        Lines {
            alloc,
            rest: lines,
            place: 0,
        }
    }
}

impl yaml_scanner_t for Lines<'_> {
    fn scan(&mut self) -> Result<yaml_token_t, yaml_source_fault_t> {
        let Some((line, rest)) = self.rest.split_once('\n') else {
            return Err(end_of(self.place));
        };
        self.rest = rest;
        self.place = self.place.wrapping_add(1);
        token_of(self.alloc, line)
    }
}

/// The tokens of a list at n, computed one at a time. A list is a text of parts with `/` between them. Each has
/// `1`, `n` or `n-1`, how often it is repeated, and after a space token lines with `;` between them, which have
/// `#` for the marks and `@` for how often the part was repeated before.
#[derive(Drop)]
pub struct Growing<'a> {
    alloc: Global,
    parts: &'a str,
    n: u64,
    /// The place of the next token, counted from 0.
    place: u64,
}

impl<'a> Growing<'a> {
    pub fn new(alloc: Global, parts: &'a str, n: u64) -> Self {
        Growing {
            alloc,
            parts,
            n,
            place: 0,
        }
    }

    /// How often a part is repeated.
    fn times(&self, word: &str) -> u64 {
        match word {
            "n" => self.n,
            "n-1" => self.n.saturating_sub(1),
            _ => 1,
        }
    }

    /// The line of the next token, and how often its part is repeated before.
    fn next_line(&self) -> Option<(&'a str, u64)> {
        let mut place = self.place;
        for part in self.parts.split('/') {
            let (word, lines) = part.split_once(' ')?;
            let count = lines.split(';').count() as u64;
            let len = self.times(word).saturating_mul(count);
            if place < len {
                let index = usize::try_from(place.checked_rem(count)?).ok()?;
                return Some((lines.split(';').nth(index)?, place.checked_div(count)?));
            }
            place -= len;
        }
        None
    }
}

impl yaml_scanner_t for Growing<'_> {
    fn scan(&mut self) -> Result<yaml_token_t, yaml_source_fault_t> {
        let Some((line, number)) = self.next_line() else {
            return Err(end_of(self.place));
        };
        let place = self.place;
        self.place = self.place.wrapping_add(1);
        match filled(self.alloc, line, place, number) {
            Ok(line) => token_of(self.alloc, line.as_str()),
            Err(_) => Err(yaml_source_fault_t::out_of_memory()),
        }
    }
}

/// Returns a token line with the marks of this place for `#`, and this number for each `@`.
fn filled(alloc: Global, line: &str, place: u64, number: u64) -> Result<String, AllocError> {
    let start = place.wrapping_mul(2);
    let end = start.wrapping_add(1);
    let marks = format!(in alloc; "{start}:0:{start} {end}:0:{end}")?;
    let line = line.replace(alloc, '#', marks.as_str())?;
    let number = format!(in alloc; "{number}")?;
    line.as_str().replace(alloc, '@', number.as_str())
}
