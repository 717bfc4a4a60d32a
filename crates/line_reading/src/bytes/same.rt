//! Texts that end alike.
ghost use Rattle.std.specs.Prelude.{◌≡◌, ◌≢◌, ◌-◌, ◌≤◌, ◌<◌, true, false, length, drop};
ghost use Rattle.std.specs.Slice.Scan.{little_endian};

use crate::bytes::word::word_at;

/// Returns whether two texts end with the same `len` bytes, from 1 to 8.
#[inline(always)]
pub(crate) fn end_alike(left: &[u8], right: &[u8], len: usize) -> bool
    requires some { 0 < len }
    requires few { len ≤ 8 }
    requires left { 8 ≤ length left.now }
    requires right { 8 ≤ length right.now }
    ensures yes { result ≡ true
        → drop (length left.now - len) left.now ≡ drop (length right.now - len) right.now }
    ensures no { result ≡ false
        → drop (length left.now - len) left.now ≢ drop (length right.now - len) right.now }
{
    let before = 8 * (8 - len) as u32;
    last_word(left) >> before == last_word(right) >> before
}

/// Returns the last eight bytes as a word.
#[inline(always)]
fn last_word(bytes: &[u8]) -> u64
    requires { 8 ≤ length bytes.now }
    ensures { result ≡ little_endian (drop (length bytes.now - 8) bytes.now) 0 }
{
    word_at(&bytes[bytes.len() - 8..], 0)
}
