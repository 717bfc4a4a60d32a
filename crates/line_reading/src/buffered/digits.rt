//! Numbers of up to seven digits, whose bytes are looked at in one word.
ghost use Rattle.std.specs.Prelude.{◌≡◌, ◌+◌, ◌≤◌, ◌<◌, Some, true, false, length, drop, map, slice_index};
ghost use Rattle.std.specs.Char.{is_ascii_digit};
ghost use Rattle.std.specs.Simd.Lanes.{mask_l};
ghost use Rattle.line_reading.specs.tokens.Field.{number_at};
ghost use Rattle.line_reading.specs.tokens.Joined.{Joins, is_no_digit};
ghost use Rattle.line_reading.specs.tokens.ReadAt.{BeginsWithNoDigit, HasDigits};

use crate::marks::{DigitsRead, NO_NUMBER, NumberRead};
use std::simd::prelude::*;

/// Reads the number that begins at `at`, of at most seven digits; for any other its end is 0.
#[inline(always)]
pub(crate) fn read_digits(bytes: &[u8], at: usize) -> NumberRead
    requires { at + 8 ≤ length bytes.now }
    ensures within { result.end ≤ at + 7 }
    ensures some { 0 < result.end
        → number_at (drop at bytes.now) ≡ Some (result.value, drop result.end bytes.now) }
{
    if bytes[at] == b'0' {
        return read_zero(bytes, at);
    }
    let digits = digits_at(bytes, at);
    if digits.len == 0 || digits.len == 8 {
        return NO_NUMBER;
    }
    NumberRead {
        value: digits.value,
        end: at + digits.len,
    }
}

/// Reads the 0 at `at`, which no digit follows.
#[inline(always)]
fn read_zero(bytes: &[u8], at: usize) -> NumberRead
    requires room { at + 1 < length bytes.now }
    requires zero { slice_index bytes.now at ≡ 48 }
    ensures within { result.end ≤ at + 1 }
    ensures some { 0 < result.end
        → number_at (drop at bytes.now) ≡ Some (result.value, drop result.end bytes.now) }
{
    if is_digit_at(bytes, at + 1) {
        return NO_NUMBER;
    }
    NumberRead {
        value: 0,
        end: at + 1,
    }
}

/// Returns whether there is a digit at `at`.
#[inline(always)]
pub(super) fn is_digit_at(bytes: &[u8], at: usize) -> bool
    requires { at < length bytes.now }
    ensures yes { result ≡ true → is_ascii_digit (slice_index bytes.now at) ≡ true }
    ensures no { result ≡ false → BeginsWithNoDigit (drop at bytes.now) }
{
    bytes[at].is_ascii_digit()
}

/// Returns the digits that begin the eight bytes from an index on. If there are eight, more may follow.
#[inline(always)]
fn digits_at(bytes: &[u8], at: usize) -> DigitsRead
    requires { at + 8 ≤ length bytes.now }
    ensures most { result.len ≤ 8 }
    ensures few { result.len < 8 → HasDigits (drop at bytes.now) result.len result.value }
{
    let eight = u8x8::from_slice(&bytes[at..]);
    let others = other_lanes(eight);
    if others == 0 {
        return DigitsRead { len: 8, value: 0 };
    }
    let len = others.trailing_zeros();
    let values = u64::from_le_bytes(eight.to_array()) ^ 0x3030_3030_3030_3030;
    // the byte after the digits becomes the last one, and zeros come before them
    let value = joined(values << (56 - 8 * len));
    DigitsRead {
        len: len as usize,
        value,
    }
}

/// A bit for each byte that is no digit, the first lowest.
#[inline(always)]
fn other_lanes(bytes: u8x8) -> u64
    ensures { result ≡ mask_l (map is_no_digit bytes) }
{
    (bytes - u8x8::splat(b'0'))
        .simd_ge(u8x8::splat(10))
        .to_bitmask()
}

/// The number of the seven digits that a word begins with: they are joined by two and then by four.
#[inline(always)]
fn joined(digits: u64) -> u64
    ensures { Joins digits result }
{
    // 2561 is 10 * 256 + 1: a digit is the tens of the next one
    let pairs = digits.wrapping_mul(2561) & 0x00ff_00ff_00ff_00ff;
    let fours = pairs * 100 + (pairs >> 16u32) & 0x0000_ffff_0000_ffff;
    fours * 10_000 + (fours >> 32u32) & 0xffff_ffff
}
