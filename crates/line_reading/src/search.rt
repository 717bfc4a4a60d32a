//! The index of a byte.
ghost use Rattle.std.specs.Prelude.{◌≡◌, ◌≢◌, ◌<◌, ◌≤◌, All, take, slice_index, length};

use memchr::memchr;

/// Returns how many bytes come before the first `byte`: all, if there is none.
pub(crate) fn len_before(bytes: &[u8], byte: u8) -> usize
    ensures bound { result ≤ length bytes.now }
    ensures before { All (λ x. x ≢ byte) (take result bytes.now) }
    ensures found { result < length bytes.now → slice_index bytes.now result ≡ byte }
{
    memchr(byte, bytes).unwrap_or(bytes.len())
}
