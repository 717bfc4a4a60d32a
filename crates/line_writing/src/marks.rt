//! Marks as they are written. Their digits are gathered first, from the last to the first.
ghost use Rattle.std.specs.Prelude.{◌≡◌, ◌≤◌, ◌<◌, ◌+◌, ◌++◌, [], ◌∷◌, length, drop, OnOk};
ghost use Rattle.std.specs.Prelude.{string_bytes, decimal, IsAscii};
ghost use Rattle.line_writing.specs.FieldTexts.{after_spaces, mark_text};

use itoa::write_digits;
use libyaml_types::yaml_mark_t;
use percent_encoding::ascii_str;
use std::alloc::AllocError;

/// Two marks take at most this many bytes: six numbers, and a byte before each.
pub(crate) const TWO_MARKS: usize = 126;

/// Appends two marks, each after a space.
pub(crate) fn append_marks(
    line: &mut String,
    start: &yaml_mark_t,
    end: &yaml_mark_t,
) -> Result<(), AllocError>
    ensures { OnOk result (string_bytes line.new ≡ string_bytes line.old
        ++ after_spaces (mark_text start.now ∷ mark_text end.now ∷ [])) }
{
    let mut text = [0; TWO_MARKS];
    let from = write_mark(end, &mut text, TWO_MARKS);
    let from = write_mark(start, &mut text, from);
    line.push_str(ascii_str(&text[from..]))
}

/// Writes a space and the mark before `end`, and returns where they start.
pub(crate) fn write_mark(mark: &yaml_mark_t, text: &mut [u8], end: usize) -> usize
    requires { (63 ≤ end) × (end ≤ length text.old) }
    ensures start { (result < end) × (end ≤ result + 63) }
    ensures written { drop result text.new ≡ after_spaces (mark_text mark.now ∷ []) ++ drop end text.old }
    ensures ascii { IsAscii (mark_text mark.now) }
{
    let column = write_number(b':', mark.column, text, end);
    let line = write_number(b':', mark.line, text, column);
    write_number(b' ', mark.index, text, line)
}

/// Writes the byte and the number before `end`, and returns where they start.
#[inline(always)]
fn write_number(byte: u8, number: u64, text: &mut [u8], end: usize) -> usize
    requires { (21 ≤ end) × (end ≤ length text.old) }
    ensures start { (result < end) × (end ≤ result + 21) }
    ensures written { drop result text.new ≡ byte ∷ (decimal number ++ drop end text.old) }
    ensures ascii { IsAscii (decimal number) }
{
    let start = write_digits(number, text, end) - 1;
    text[start] = byte;
    start
}
