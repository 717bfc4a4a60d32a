//! Strings in lines.
ghost use Rattle.std.specs.Prelude.{◌≡◌, ◌++◌, OnOk, string_bytes};
ghost use Rattle.line_writing.specs.Escape.{escaped};

use line_reading::bytes::is_clean;
use percent_encoding::{AsciiSet, CONTROLS, ascii_set, utf8_percent_encode};
use std::alloc::AllocError;

/// What is escaped besides the bytes above ASCII.
pub(crate) const ESCAPED: AsciiSet = ascii_set!(CONTROLS.add(b' ').add(b'%'));

/// Appends the text, escaped.
#[inline(always)]
pub(crate) fn append_escaped(line: &mut String, text: &str) -> Result<(), AllocError>
    ensures { OnOk result (string_bytes line.new ≡ string_bytes line.old ++ escaped text.now) }
{
    if is_clean(text.as_bytes()) {
        return line.push_str(text);
    }
    utf8_percent_encode(text, ESCAPED).append_to(line)
}
