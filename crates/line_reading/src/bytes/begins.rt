//! Bytes that begin with others.
ghost use Rattle.std.specs.Prelude.{◌≡◌, ◌+◌, ◌*◌, ◌≤◌, true, length, take, slice_index};

/// Returns whether the bytes begin with those of `start`, at least four.
#[inline(always)]
pub(crate) fn begins_with(bytes: &[u8], start: &[u8]) -> bool
    requires { 4 ≤ length start.now }
    ensures { result ≡ true → take (length start.now) bytes.now ≡ start.now }
{
    if bytes.len() < start.len() {
        return false;
    }
    let last = start.len() - 4;
    let mut at = 0;
    while at < last {
        if four_at(bytes, at) != four_at(start, at) {
            return false;
        }
        at += 4;
    }
    // The last four bytes have those that no step of the loop has.
    four_at(bytes, last) == four_at(start, last)
}

/// The four bytes from an index on, the first lowest.
#[inline(always)]
fn four_at(bytes: &[u8], at: usize) -> u32
    requires { at + 4 ≤ length bytes.now }
    ensures { result ≡ slice_index bytes.now at + slice_index bytes.now (at + 1) * 256
        + slice_index bytes.now (at + 2) * 65536 + slice_index bytes.now (at + 3) * 16777216 }
{
    u32::from_le_bytes([bytes[at], bytes[at + 1], bytes[at + 2], bytes[at + 3]])
}
