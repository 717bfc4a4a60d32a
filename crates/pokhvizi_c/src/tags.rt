//! The facts of tags and directives for C.
ghost use Rattle.std.specs.Prelude.{◌≡◌, ◌≤◌, ◌<◌, ℕ, List, Some, None, length, take, drop, is_some};
ghost use Rattle.std.specs.FinMap.{get};
ghost use Rattle.libyaml_events.specs.machine.Machine.{resolve};
ghost use Rattle.libyaml_grammar.specs.grammar.Order.{is_accepted};
ghost use Rattle.token_steps.specs.Texts.{tag_fact, bit};
ghost use Rattle.token_steps.specs.Handles.{handles_at};
ghost use Rattle.token_steps.specs.Numbers.{length_or_none};

use token_steps::{directive_fact, handle_t, tag, version_fact};

/// Returns the fact of a VERSION-DIRECTIVE: 1 if its version is accepted, else 0.
#[unsafe(no_mangle)]
pub extern "C" fn pokhvizi_version_fact(major: i32, minor: i32) -> u8
    ensures { result ≡ bit (is_accepted major minor) }
{
    version_fact(major, minor)
}

/// Returns the fact of a TAG-DIRECTIVE: 1 if the document declares the handle already, else 0.
#[unsafe(no_mangle)]
pub extern "C" fn pokhvizi_directive_fact(handles: &[handle_t], texts: &[u8], handle: &[u8]) -> u8
    ensures { result ≡ bit (is_some (get (handles_at texts.now handles.now) handle.now)) }
{
    directive_fact(handles, texts, handle)
}

/// Returns the fact of a TAG, like `token_steps::tag`. Puts the full tag into `out` if there is room for all
/// of it, and its length into `size`; `SIZE_MAX` if its handle isn't declared.
#[unsafe(no_mangle)]
pub extern "C" fn pokhvizi_tag(
    handles: &[handle_t],
    texts: &[u8],
    handle: &[u8],
    suffix: &[u8],
    out: &mut [u8],
    size: &mut usize,
) -> u8
    ensures fact { result ≡ tag_fact (resolve (handles_at texts.now handles.now) handle.now suffix.now) }
    ensures length { size.new
        ≡ length_or_none (resolve (handles_at texts.now handles.now) handle.now suffix.now) }
    ensures put { (tag : List ℕ) → resolve (handles_at texts.now handles.now) handle.now suffix.now ≡ Some tag
        → length tag ≤ length out.old → take (length tag) out.new ≡ tag }
    ensures rest { (tag : List ℕ)
        → resolve (handles_at texts.now handles.now) handle.now suffix.now ≡ Some tag
        → drop (length tag) out.new ≡ drop (length tag) out.old }
    ensures no_room { (tag : List ℕ)
        → resolve (handles_at texts.now handles.now) handle.now suffix.now ≡ Some tag
        → length out.old < length tag → out.new ≡ out.old }
    ensures undefined { resolve (handles_at texts.now handles.now) handle.now suffix.now ≡ None
        → out.new ≡ out.old }
{
    tag(handles, texts, handle, suffix, out, size)
}
