//! A full tag.
ghost use Rattle.std.specs.Prelude.{◌≡◌, ◌≤◌, ◌<◌, ◌++◌, ℕ, List, Some, None, length, drop, take};
ghost use Rattle.libyaml_events.specs.machine.Machine.{resolve};
ghost use Rattle.token_steps.specs.Handles.{handles_at};
ghost use Rattle.token_steps.specs.Texts.{tag_fact};
ghost use Rattle.token_steps.specs.Numbers.{length_or_none};

use crate::tags::facts::whole_fact;
use crate::tags::handles::{handle_t, prefix_of};

/// Puts these two texts, one after the other.
fn put_both(prefix: &[u8], suffix: &[u8], out: &mut [u8])
    requires { length (prefix.now ++ suffix.now) ≤ length out.old }
    ensures put { take (length (prefix.now ++ suffix.now)) out.new ≡ prefix.now ++ suffix.now }
    ensures rest { drop (length (prefix.now ++ suffix.now)) out.new
        ≡ drop (length (prefix.now ++ suffix.now)) out.old }
{
    out[..prefix.len()].copy_from_slice(prefix);
    out[prefix.len()..prefix.len() + suffix.len()].copy_from_slice(suffix);
}

/// Returns the fact of a TAG: 1 if the full tag is empty, 2 if it is `!`, 3 for any other, and 4 if its
/// handle isn't declared. If there is room for all of the tag, puts it at the start of `out`; otherwise
/// leaves `out` as it was. Puts its length in bytes into `size`, or `usize::MAX` if the handle isn't
/// declared.
pub fn tag(
    handles: &[handle_t],
    texts: &[u8],
    handle: &[u8],
    suffix: &[u8],
    out: &mut [u8],
    size: &mut usize,
) -> u8
    ensures fact { result ≡ tag_fact (resolve (handles_at texts.now handles.now) handle.now suffix.now) }
    ensures length { size.new
        ≡ length_or_none (resolve (handles_at texts.now handles.now) handle.now suffix.now) }
    ensures put { (tag : List ℕ) → resolve (handles_at texts.now handles.now) handle.now suffix.now ≡ Some tag
        → length tag ≤ length out.old → take (length tag) out.new ≡ tag }
    ensures rest { (tag : List ℕ)
        → resolve (handles_at texts.now handles.now) handle.now suffix.now ≡ Some tag
        → drop (length tag) out.new ≡ drop (length tag) out.old }
    ensures no_room { (tag : List ℕ)
        → resolve (handles_at texts.now handles.now) handle.now suffix.now ≡ Some tag
        → length out.old < length tag → out.new ≡ out.old }
    ensures undefined { resolve (handles_at texts.now handles.now) handle.now suffix.now ≡ None
        → out.new ≡ out.old }
{
    if handle.is_empty() {
        *size = put_whole(&[], suffix, out);
        return whole_fact(&[], suffix);
    }
    match prefix_of(handles, texts, handle) {
        Some(prefix) => {
            *size = put_whole(prefix, suffix, out);
            whole_fact(prefix, suffix)
        }
        None => {
            *size = usize::MAX;
            4
        }
    }
}

/// Puts these two texts into `out` if there is room for both. Returns their length.
fn put_whole(prefix: &[u8], suffix: &[u8], out: &mut [u8]) -> usize
    ensures length { result ≡ length (prefix.now ++ suffix.now) }
    ensures put { length (prefix.now ++ suffix.now) ≤ length out.old
        → take (length (prefix.now ++ suffix.now)) out.new ≡ prefix.now ++ suffix.now }
    ensures rest { drop (length (prefix.now ++ suffix.now)) out.new
        ≡ drop (length (prefix.now ++ suffix.now)) out.old }
    ensures no_room { length out.old < length (prefix.now ++ suffix.now) → out.new ≡ out.old }
{
    let length = prefix.len() + suffix.len();
    if length <= out.len() {
        put_both(prefix, suffix, out);
    }
    length
}
