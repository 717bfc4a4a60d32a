//! Numbers and marks that begin at an index of a line.
//!
//! A function that reads begins at the index `at` of the line, and returns the index where it stopped. A
//! number has at least one digit, so none stops at the index 0. The functions return 0 for "no number" and
//! "no mark".
//!
//! That 0 replaces an `Option` for speed, since each token has six numbers: a `NumberRead` has
//! 16 bytes and is returned in two registers, while an `Option` of it would have 24 and be returned in
//! memory. Outside this file the 0 becomes an `Option` (`number.rt`) or an error (`token_line.rt`).
ghost use Rattle.std.specs.Prelude.{◌≡◌, ◌+◌, ◌≤◌, ◌<◌, Some, None, true, false, length, drop, slice_index};
ghost use Rattle.line_reading.specs.tokens.Field.{mark_at};
ghost use Rattle.line_reading.specs.tokens.Prefixes.{after_first, after_field};
ghost use Rattle.line_reading.specs.tokens.ReadAt.{further};
ghost use Rattle.line_reading.specs.tokens.ReadAt.{HasDigits, IsNumberRead};
ghost use Rattle.std.specs.Char.{is_ascii_digit};

use libyaml_types::yaml_mark_t;

/// Reads the field at `at` into `mark`, and returns the index of the field's end, or 0 if it is no mark.
///
/// A mark counts characters, lines and columns, each from 0.
pub(crate) fn read_mark(line: &[u8], at: usize, mark: &mut yaml_mark_t) -> usize
    requires { at ≤ length line.now }
    ensures within { result ≤ length line.now }
    ensures none { result ≡ 0 → mark_at (drop at line.now) ≡ None }
    ensures some { 0 < result → mark_at (drop at line.now) ≡ Some (mark.new, further (drop result line.now)) }
{
    let index = read_number(line, at);
    if index.end == 0 {
        return 0;
    }
    if !is_byte_at(line, index.end, b':') {
        return 0;
    }
    let number = read_number(line, index.end + 1);
    if number.end == 0 {
        return 0;
    }
    if !is_byte_at(line, number.end, b':') {
        return 0;
    }
    let column = read_number(line, number.end + 1);
    if column.end == 0 {
        return 0;
    }
    if !ends_field(line, column.end) {
        return 0;
    }
    mark.index = index.value;
    mark.line = number.value;
    mark.column = column.value;
    column.end
}

/// Returns whether there is a byte at `at`, and it is this one.
#[inline(always)]
fn is_byte_at(line: &[u8], at: usize, byte: u8) -> bool
    requires { at ≤ length line.now }
    ensures yes { result ≡ true → (at < length line.now)
        × (after_first byte (drop at line.now) ≡ Some (drop (at + 1) line.now)) }
    ensures no { result ≡ false → after_first byte (drop at line.now) ≡ None }
{
    at < line.len() && line[at] == byte
}

/// Returns whether a field ends at `at`: at a space, or at the end of the line.
#[inline(always)]
fn ends_field(line: &[u8], at: usize) -> bool
    requires { at ≤ length line.now }
    ensures yes { result ≡ true → after_field (drop at line.now) ≡ Some (further (drop at line.now)) }
    ensures no { result ≡ false → after_field (drop at line.now) ≡ None }
{
    at == line.len() || line[at] == b' '
}

/// A number, and the index after its last digit; that index is 0 if there is no number.
#[derive(Copy, Clone)]
pub(crate) struct NumberRead {
    pub value: u64,
    pub end: usize,
}

pub(crate) const NO_NUMBER: NumberRead = NumberRead { value: 0, end: 0 };

/// The number of digits that were read, and their value.
#[derive(Copy, Clone)]
pub(crate) struct DigitsRead {
    pub len: usize,
    pub value: u64,
}

/// Reads the number that begins at `at`: digits without a leading zero, of a value within 64 bits.
pub(crate) fn read_number(line: &[u8], at: usize) -> NumberRead
    requires { at ≤ length line.now }
    ensures { IsNumberRead line.now at result }
{
    let mut value = 0u64;
    for (len, digit) in line[at..].iter().enumerate() {
        if !digit.is_ascii_digit() {
            return ended_number(line, at, DigitsRead { len, value });
        }
        let Some(tens) = value.checked_mul(10) else {
            return NO_NUMBER;
        };
        let Some(more) = tens.checked_add(u64::from(*digit - b'0')) else {
            return NO_NUMBER;
        };
        value = more;
    }
    let len = line.len() - at;
    ended_number(line, at, DigitsRead { len, value })
}

/// Returns the number of these digits, which begin at `at`, or no number for none and for a leading zero.
#[inline(always)]
fn ended_number(line: &[u8], at: usize, digits: DigitsRead) -> NumberRead
    requires within { at + digits.len ≤ length line.now }
    requires digits { HasDigits (drop at line.now) digits.len digits.value }
    ensures { IsNumberRead line.now at result }
{
    let end = at + digits.len;
    match &line[at..end] {
        [] => NO_NUMBER,
        [b'0', _, ..] => NO_NUMBER,
        _ => NumberRead {
            value: digits.value,
            end,
        },
    }
}
