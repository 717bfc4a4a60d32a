//! Texts that need no escape.
ghost use Rattle.std.specs.Prelude.{◌≡◌, ◌+◌, ◌≤◌, true, false, length, map, All};
ghost use Rattle.std.specs.Simd.Lanes.{mask_l};
ghost use Rattle.std.specs.Slice.Scan.{HoldsNowhere, HoldsSomewhere};
ghost use Rattle.line_reading.specs.Clean.{IsClean, is_odd, is_odd_at};

use crate::bytes::word::word_at;
use std::simd::prelude::*;

/// Returns whether each byte is a visible ASCII character other than `%`.
#[inline(always)]
pub fn is_clean(bytes: &[u8]) -> bool
    ensures clean { result ≡ true → All IsClean bytes.now }
    ensures odd { result ≡ false → HoldsSomewhere (is_odd_at bytes.now) 0 (length bytes.now) }
{
    let len = bytes.len();
    if len < 8 {
        for byte in bytes {
            if !byte.is_ascii_graphic() || *byte == b'%' {
                return false;
            }
        }
        return true;
    }
    let mut at = 0;
    while at + 8 <= len {
        if !is_clean_at(bytes, at) {
            return false;
        }
        at += 8;
    }
    // The last eight bytes have those that no word of the loop has.
    is_clean_at(bytes, len - 8)
}

/// Returns the end of the clean bytes that begin at `from`, or a place before it in the last 15 bytes.
#[inline(always)]
pub(crate) fn clean_end(bytes: &[u8], from: usize) -> usize
    requires { from ≤ length bytes.now }
    ensures order { (from ≤ result) × (result ≤ length bytes.now) }
    ensures clean { HoldsNowhere (is_odd_at bytes.now) from result }
{
    let mut at = from;
    while bytes.len() - at >= 16 {
        let odd = odd_lanes(u8x16::from_slice(&bytes[at..]));
        if odd != 0 {
            return at + odd.trailing_zeros() as usize;
        }
        at += 16;
    }
    at
}

/// A bit for each byte that is not clean, the first lowest.
#[inline(always)]
fn odd_lanes(bytes: u8x16) -> u64
    ensures { result ≡ mask_l (map is_odd bytes) }
{
    ((bytes - u8x16::splat(0x21)).simd_ge(u8x16::splat(0x5e))
        | bytes.simd_eq(u8x16::splat(b'%'))).to_bitmask()
}

/// Returns whether the eight bytes from an index on are clean: each that is not leaves its high bit set, and
/// no addition carries into the next byte.
#[inline(always)]
fn is_clean_at(bytes: &[u8], at: usize) -> bool
    requires { at + 8 ≤ length bytes.now }
    ensures clean { result ≡ true → HoldsNowhere (is_odd_at bytes.now) at (at + 8) }
    ensures odd { result ≡ false → HoldsSomewhere (is_odd_at bytes.now) at (at + 8) }
{
    let word = word_at(bytes, at);
    let low = word & 0x7f7f_7f7f_7f7f_7f7f;
    let visible = low + 0x5f5f_5f5f_5f5f_5f5f;
    let no_percent = (low ^ 0x2525_2525_2525_2525) + 0x7f7f_7f7f_7f7f_7f7f;
    let delete = low + 0x0101_0101_0101_0101;
    let odd = (visible & no_percent) ^ 0x8080_8080_8080_8080 | delete | word;
    odd & 0x8080_8080_8080_8080 == 0
}
