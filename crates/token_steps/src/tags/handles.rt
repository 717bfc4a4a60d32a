//! A document's handles: a table of ranges, and the buffer that these are of.
ghost use Rattle.std.specs.Prelude.{◌≡◌, bytes_eq};
ghost use Rattle.std.specs.FinMap.{get};
ghost use Rattle.std.specs.Option.{option_copied};
ghost use Rattle.libyaml_events.specs.machine.Machine.{or_default, undeclared_prefix};
ghost use Rattle.token_steps.specs.Handles.{bytes_at, handles_at, prefix_in};

/// A range of a buffer of bytes.
#[repr(C)]
#[derive(Copy, Clone)]
pub struct text_t {
    /// The index of its first byte.
    pub place: u64,
    /// How many bytes it has.
    pub length: u64,
}

/// A handle that a document declares, and its prefix, as ranges of one buffer. A range that goes past the
/// buffer's end has the bytes that there are.
///
/// libyaml: `yaml_tag_directive_t`.
#[repr(C)]
#[derive(Copy, Clone)]
pub struct handle_t {
    pub handle: text_t,
    pub prefix: text_t,
}

/// Returns the bytes of a range.
pub(crate) fn text_at<'a>(texts: &'a [u8], text: &text_t) -> &'a [u8]
    ensures { result.now ≡ bytes_at texts.now text.now }
{
    if text.place >= texts.len() as u64 {
        return &[];
    }
    let rest = &texts[text.place as usize..];
    if text.length >= rest.len() as u64 {
        return rest;
    }
    &rest[..text.length as usize]
}

/// Returns whether the two texts have the same bytes.
pub(crate) fn is_same(left: &[u8], right: &[u8]) -> bool
    ensures { result ≡ bytes_eq left.now right.now }
{
    left == right
}

/// Returns the prefix that the document declares for a handle.
pub(crate) fn declared_prefix<'a>(
    handles: &[handle_t],
    texts: &'a [u8],
    handle: &[u8],
) -> Option<&'a [u8]>
    ensures { option_copied result ≡ prefix_in texts.now handles.now handle.now }
{
    for entry in handles {
        if is_same(text_at(texts, &entry.handle), handle) {
            return Some(text_at(texts, &entry.prefix));
        }
    }
    None
}

/// Returns the prefix of a handle that no document has to declare.
fn default_prefix(handle: &[u8]) -> Option<&'static [u8]>
    ensures { option_copied result ≡ undeclared_prefix handle.now }
{
    if is_same(handle, "!".as_bytes()) {
        Some("!".as_bytes())
    } else if is_same(handle, "!!".as_bytes()) {
        Some("tag:yaml.org,2002:".as_bytes())
    } else {
        None
    }
}

/// Returns the prefix that the document declares for a handle, or else its default one.
#[tactic(auto, using(crate::proofs::Found::get_handle))]
pub fn prefix_of<'a>(handles: &[handle_t], texts: &'a [u8], handle: &[u8]) -> Option<&'a [u8]>
    ensures { option_copied result ≡ or_default (get (handles_at texts.now handles.now) handle.now)
        handle.now }
{
    match declared_prefix(handles, texts, handle) {
        Some(prefix) => Some(prefix),
        None => default_prefix(handle),
    }
}
