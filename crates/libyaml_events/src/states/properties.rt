//! The texts of properties, moved out of their tokens and held until the node's event.
ghost use Rattle.std.specs.Prelude.{◌≡◌, Some, None, option_map, string_bytes};
ghost use Rattle.libyaml_types.specs.declared.token.unnamed_yaml_token_t_data.TheVariants as tok;
ghost use Rattle.libyaml_automaton.specs.Numbers.{flag};
ghost use Rattle.libyaml_events.specs.machine.Outcomes.{only_if};
ghost use Rattle.libyaml_events.specs.automaton.AutomatonResults.{with_anchor, with_tag};

use crate::parser::TokenParser;
use crate::pending::Pending;
use crate::states::contents::{in_words, take_memory};
use libyaml_types::{
    unnamed_yaml_token_t_data, unnamed_yaml_token_t_data_anchor, unnamed_yaml_token_t_data_tag,
    yaml_token_t,
};
use std::alloc::Global;
use std::mem;

/// Puts the anchor of a token, moved out of it, into `held`, which holds none. The text that is kept goes
/// into the token's place.
#[inline(always)]
fn put_anchor(
    spare: &mut String,
    anchor: &mut unnamed_yaml_token_t_data_anchor,
    held: &mut Option<String>,
)
    requires { held.old ≡ None }
    ensures { option_map string_bytes held.new ≡ Some anchor.old.value }
{
    let text = take_memory(*spare.allocator(), spare);
    let name = in_words(mem::replace(&mut anchor.value, text));
    mem::forget(mem::replace(held, Some(name)));
}

/// Puts the tag of a token, moved out of it, into `held`, whose earlier texts go into the token's place.
#[inline(always)]
fn put_tag(
    alloc: Global,
    tag: &mut unnamed_yaml_token_t_data_tag,
    held: &mut Option<unnamed_yaml_token_t_data_tag>,
)
    ensures { held.new ≡ Some tag.old }
{
    match held {
        Some(earlier) => {
            mem::swap(&mut earlier.handle, &mut tag.handle);
            mem::swap(&mut earlier.suffix, &mut tag.suffix);
        }
        None => put_first_tag(alloc, tag, held),
    }
}

/// Puts the tag of a token, moved out of it, into `held` if no tag was put yet.
#[cold]
#[inline(never)]
fn put_first_tag(
    alloc: Global,
    tag: &mut unnamed_yaml_token_t_data_tag,
    held: &mut Option<unnamed_yaml_token_t_data_tag>,
)
    ensures { held.new ≡ Some tag.old }
{
    *held = Some(unnamed_yaml_token_t_data_tag {
        handle: mem::replace(&mut tag.handle, String::new(alloc)),
        suffix: mem::replace(&mut tag.suffix, String::new(alloc)),
    });
}

/// Forgets an anchor.
#[cold]
fn forget_anchor(anchor: &mut Option<String>)
    ensures { option_map string_bytes anchor.new ≡ None }
{
    *anchor = None;
}

/// Forgets the anchor of an earlier node.
#[inline(always)]
pub(super) fn forget_earlier(pending: &mut Pending)
    ensures anchor { pending.new.properties.anchor
        ≡ only_if (flag pending.old.reading.has_anchor) pending.old.properties.anchor }
    ensures tag { pending.new.properties.tag ≡ pending.old.properties.tag }
    ensures reading { pending.new.reading ≡ pending.old.reading }
{
    if pending.reading.has_anchor == 0 && pending.properties.anchor.is_some() {
        forget_anchor(&mut pending.properties.anchor);
    }
}

/// Takes the anchor that is held.
#[inline(always)]
pub(super) fn take_anchor(pending: &mut Pending) -> Option<String>
    ensures { option_map string_bytes result ≡ pending.old.properties.anchor }
{
    pending.properties.anchor.take()
}

impl TokenParser {
    /// Holds the name of an anchor.
    #[inline(never)]
    pub(super) fn hold_anchor(&mut self, token: &mut yaml_token_t, pending: &mut Pending)
        ensures same { self.new ≡ self.old }
        ensures held { (a : unnamed_yaml_token_t_data_anchor) → token.old.content ≡ tok.Anchor a
            → pending.new ≡ with_anchor a.value pending.old }
    {
        if pending.properties.anchor.is_some() {
            return self.hold_anchor_anew(token, pending);
        }
        if let unnamed_yaml_token_t_data::Anchor(anchor) = &mut token.content {
            put_anchor(&mut self.spare, anchor, &mut pending.properties.anchor);
        }
    }

    /// Forgets the anchor of an earlier node, and holds the name of this one.
    #[cold]
    #[inline(never)]
    fn hold_anchor_anew(&mut self, token: &mut yaml_token_t, pending: &mut Pending)
        ensures same { self.new ≡ self.old }
        ensures held { (a : unnamed_yaml_token_t_data_anchor) → token.old.content ≡ tok.Anchor a
            → pending.new ≡ with_anchor a.value pending.old }
    {
        forget_anchor(&mut pending.properties.anchor);
        if let unnamed_yaml_token_t_data::Anchor(anchor) = &mut token.content {
            put_anchor(&mut self.spare, anchor, &mut pending.properties.anchor);
        }
    }

    /// Holds the texts of a tag.
    #[inline(never)]
    pub(super) fn hold_tag(&mut self, token: &mut yaml_token_t, pending: &mut Pending)
        ensures same { self.new ≡ self.old }
        ensures held { (g : unnamed_yaml_token_t_data_tag) → token.old.content ≡ tok.Tag g
            → pending.new ≡ with_tag g pending.old }
    {
        if let unnamed_yaml_token_t_data::Tag(tag) = &mut token.content {
            put_tag(self.allocator(), tag, &mut pending.properties.tag);
        }
    }
}
