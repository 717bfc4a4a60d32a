//! Places in a text.
ghost use Rattle.std.specs.Prelude.{◌≡◌, Some};
ghost use Rattle.libyaml_types.specs.Words.{place_in_words};

use std::fmt;

/// A place in a text. All three count from 0: `index` characters from its start, `line` lines, and
/// `column` characters within the line. Its `Display` counts lines and columns from 1.
///
/// libyaml: `yaml_mark_t`.
#[repr(C)]
#[derive(Copy, Clone, PartialEq, Eq, Debug)]
pub struct yaml_mark_t {
    /// Characters from the start of the text.
    pub index: u64,
    /// Lines before this one.
    pub line: u64,
    /// Characters before this one in its line.
    pub column: u64,
}

/// The place at which a text begins.
pub const ZERO_MARK: yaml_mark_t = yaml_mark_t {
    index: 0,
    line: 0,
    column: 0,
};

/// The line and the column, from 1: `line L, column C`.
impl fmt::Display for yaml_mark_t {
    ghost output = { λ m. Some (place_in_words m) };

    fn fmt<W: fmt::Write>(&self, f: &mut fmt::Formatter<W>) -> fmt::Result {
        let line = self.line as u128 + 1;
        let column = self.column as u128 + 1;
        write!(f, "line {line}, column {column}")
    }
}
