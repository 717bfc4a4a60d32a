//! A document's anchors: a table of ranges, and the buffer that these are of.
ghost use Rattle.std.specs.Prelude.{◌≡◌, bytes_eq};
ghost use Rattle.document_steps.specs.Anchors.{bytes_of, node_in};

/// An anchor, a range of a buffer of bytes, and the node that has it. A range that goes past the buffer's end
/// has the bytes that there are.
///
/// libyaml: `yaml_alias_data_t`.
#[repr(C)]
#[derive(Copy, Clone)]
pub struct anchor_t {
    /// The index of its first byte.
    pub place: u64,
    /// How many bytes it has.
    pub length: u64,
    /// The id of its node.
    pub node: i32,
}

/// Returns the bytes of an anchor.
fn text_of<'a>(texts: &'a [u8], entry: &anchor_t) -> &'a [u8]
    ensures { result.now ≡ bytes_of texts.now entry.now }
{
    if entry.place >= texts.len() as u64 {
        return &[];
    }
    let rest = &texts[entry.place as usize..];
    if entry.length >= rest.len() as u64 {
        return rest;
    }
    &rest[..entry.length as usize]
}

/// Returns whether the two texts have the same bytes.
fn is_same(left: &[u8], right: &[u8]) -> bool
    ensures { result ≡ bytes_eq left.now right.now }
{
    left == right
}

/// Returns the fact of an event that names or has an anchor: the node that the table has for it, and else 0.
pub fn carrier(anchors: &[anchor_t], texts: &[u8], anchor: &[u8]) -> i32
    ensures { result ≡ node_in texts.now anchors.now anchor.now }
{
    for entry in anchors {
        if is_same(text_of(texts, entry), anchor) {
            return entry.node;
        }
    }
    0
}
