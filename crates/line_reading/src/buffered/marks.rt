//! Marks in a buffer. As in `marks.rt`, the end 0 stands for none.
ghost use Rattle.std.specs.Prelude.{◌≡◌, ◌+◌, ◌≤◌, ◌<◌, Some, length, drop};
ghost use Rattle.line_reading.specs.tokens.Field.{number_at};
ghost use Rattle.line_reading.specs.tokens.Buffered.{IsBufferedMark, IsBufferedRow};

use super::digits::{is_digit_at, read_digits};
use crate::bytes::end_alike;
use crate::marks::{NO_NUMBER, NumberRead};
use libyaml_types::yaml_mark_t;

/// Where the line number of a mark is, and its value; the end is 0 if there is none.
#[derive(Copy, Clone)]
pub(crate) struct RowRead {
    pub at: usize,
    pub end: usize,
    pub value: u64,
}

/// No line number.
pub(super) const NO_ROW: RowRead = RowRead {
    at: 0,
    end: 0,
    value: 0,
};

/// Reads the mark at `at` into `mark`, and returns the index where it ends, or 0 if it has a number of more
/// than seven digits, or is no mark.
///
/// `row` is the line number of a mark that was read before in the same line, and becomes that of this mark:
/// most often it is the same.
#[inline(always)]
pub(super) fn read_buffered_mark(
    bytes: &[u8],
    at: usize,
    row: &mut RowRead,
    mark: &mut yaml_mark_t,
) -> usize
    requires after_name { 4 ≤ at }
    requires room { at + 24 ≤ length bytes.now }
    requires row { IsBufferedRow bytes.now row.old }
    ensures within { result ≤ at + 23 }
    ensures some { 0 < result → IsBufferedMark bytes.now at result mark.new }
    ensures row { 0 < result → IsBufferedRow bytes.now row.new }
{
    let index = read_digits(bytes, at);
    if index.end == 0 || bytes[index.end] != b':' {
        return 0;
    }
    let number = read_row(bytes, index.end + 1, row);
    if number.end == 0 || bytes[number.end] != b':' {
        return 0;
    }
    let column = read_column(bytes, number.end + 1);
    if column.end == 0 {
        return 0;
    }
    row.at = index.end + 1;
    row.end = number.end;
    row.value = number.value;
    mark.index = index.value;
    mark.line = number.value;
    mark.column = column.value;
    column.end
}

/// Reads the number that begins at `at`: if the digits of `earlier` and the byte after them stand there
/// again, it is the same number.
#[inline(always)]
fn read_row(bytes: &[u8], at: usize, earlier: &RowRead) -> NumberRead
    requires at { 6 ≤ at }
    requires room { at + 8 ≤ length bytes.now }
    requires earlier { IsBufferedRow bytes.now earlier.now }
    ensures within { result.end ≤ at + 7 }
    ensures some { 0 < result.end
        → number_at (drop at bytes.now) ≡ Some (result.value, drop result.end bytes.now) }
{
    let RowRead {
        at: earlier_at,
        end: earlier_end,
        value,
    } = *earlier;
    if earlier_end > 0 {
        let len = earlier_end - earlier_at;
        let end = at + len;
        if end_alike(&bytes[..earlier_end + 1], &bytes[..end + 1], len + 1) {
            return NumberRead { value, end };
        }
    }
    read_digits(bytes, at)
}

/// Reads the number that begins at `at`, which most often has one digit or two.
#[inline(always)]
fn read_column(bytes: &[u8], at: usize) -> NumberRead
    requires { at + 8 ≤ length bytes.now }
    ensures within { result.end ≤ at + 7 }
    ensures some { 0 < result.end
        → number_at (drop at bytes.now) ≡ Some (result.value, drop result.end bytes.now) }
{
    if !is_digit_at(bytes, at) {
        return NO_NUMBER;
    }
    let first = u64::from(bytes[at] - b'0');
    if !is_digit_at(bytes, at + 1) {
        return NumberRead {
            value: first,
            end: at + 1,
        };
    }
    if first == 0 || is_digit_at(bytes, at + 2) {
        return read_digits(bytes, at);
    }
    NumberRead {
        value: first * 10 + u64::from(bytes[at + 1] - b'0'),
        end: at + 2,
    }
}
