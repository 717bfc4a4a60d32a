//! The content of an event, put in place of another event's content.
//!
//! If that is of the same kind, it is written over field by field. If it is of another kind and has nothing
//! to be dropped, such as the empty event of a call by value, an arm of its own lets the compiler see it.
//! Else it is dropped, which functions of their own do (`replace_by_..`): to drop a content takes six registers,
//! which the function then needn't save.
ghost use Rattle.std.specs.Prelude.{◌≡◌, [], None, false, true, option_map, string_bytes};
ghost use Rattle.libyaml_types.specs.declared.event.unnamed_yaml_event_t_data.TheVariants.{Alias, MappingEnd};
ghost use Rattle.libyaml_types.specs.declared.event.unnamed_yaml_event_t_data.TheVariants.{SequenceEnd};
ghost use Rattle.libyaml_grammar.specs.grammar.Events.{plain_flag, quoted_flag};
ghost use Rattle.libyaml_events.specs.machine.Machine.{empty_scalar, mapping_start_with, scalar_with};
ghost use Rattle.libyaml_events.specs.machine.Machine.{sequence_start_with};

use crate::states::node_events::{
    is_plain, is_plain_implicit, is_quoted_implicit, mapping_start, plain_scalar, sequence_start,
};
use libyaml_types::{
    unnamed_yaml_event_t_data, unnamed_yaml_event_t_data_alias, unnamed_yaml_event_t_data_scalar,
    unnamed_yaml_token_t_data_alias, unnamed_yaml_token_t_data_scalar, yaml_mapping_style_t,
    yaml_scalar_style_t, yaml_sequence_style_t,
};
use std::alloc::Global;
use std::mem;

/// The largest text that is kept, in bytes.
const MAX_SPARE: usize = 1 << 16;

/// Takes the memory of a text that is to be replaced.
#[inline(always)]
pub(super) fn take_memory(alloc: Global, text: &mut String) -> String
    ensures taken { string_bytes result ≡ [] }
    ensures left { string_bytes text.new ≡ [] }
{
    let mut taken = mem::replace(text, String::new(alloc));
    taken.clear();
    taken
}

/// The same text. Reading its length lets the compiler move it word by word, in the way it was written,
/// instead of by a copy of three words, which waits for those writes.
#[inline(always)]
pub(super) fn in_words(text: String) -> String
    ensures { string_bytes result ≡ string_bytes text }
{
    let mut same = text;
    if same.is_empty() {
        same.clear();
    }
    same
}

/// Keeps the memory of a text, if it has more room than what was kept: a later text may take it. A text
/// beyond `MAX_SPARE` is not kept.
#[inline(always)]
fn release(spare: &mut String, text: &mut String) {
    let taken = take_memory(*spare.allocator(), text);
    let room = taken.capacity();
    if room > spare.capacity() && room <= MAX_SPARE {
        *spare = taken;
    }
}

/// Returns whether a content has no memory but that of a scalar's text.
#[inline(always)]
fn is_light(content: &unnamed_yaml_event_t_data) -> bool {
    let (anchor, tag) = match content {
        unnamed_yaml_event_t_data::Scalar(event) => (&event.anchor, &event.tag),
        unnamed_yaml_event_t_data::SequenceStart(event) => (&event.anchor, &event.tag),
        unnamed_yaml_event_t_data::MappingStart(event) => (&event.anchor, &event.tag),
        unnamed_yaml_event_t_data::DocumentStart(event) => {
            return event.tag_directives.capacity() == 0;
        }
        unnamed_yaml_event_t_data::Alias(_) => return false,
        _ => return true,
    };
    anchor.is_none() && tag.is_none()
}

/// Leaves no memory with a content that is to be replaced. One text is kept.
#[inline(always)]
pub(super) fn make_light(spare: &mut String, content: &mut unnamed_yaml_event_t_data) {
    if !is_light(content) {
        let_go_texts(spare, content);
        return;
    }
    if let unnamed_yaml_event_t_data::Scalar(event) = content {
        release(spare, &mut event.value);
    }
}

#[inline(never)]
fn let_go_texts(spare: &mut String, content: &mut unnamed_yaml_event_t_data) {
    match content {
        unnamed_yaml_event_t_data::Scalar(event) => {
            release(spare, &mut event.value);
            drop_option(&mut event.anchor);
            drop_option(&mut event.tag);
        }
        unnamed_yaml_event_t_data::Alias(event) => release(spare, &mut event.anchor),
        unnamed_yaml_event_t_data::SequenceStart(event) => {
            drop_option(&mut event.anchor);
            drop_option(&mut event.tag);
        }
        unnamed_yaml_event_t_data::MappingStart(event) => {
            drop_option(&mut event.anchor);
            drop_option(&mut event.tag);
        }
        _ => *content = unnamed_yaml_event_t_data::NoEvent,
    }
}

/// Drops a text.
#[inline(always)]
fn drop_option(text: &mut Option<String>)
    ensures { text.new ≡ None }
{
    if text.is_some() {
        *text = None;
    }
}

/// Puts a content in place of one without memory.
#[inline(always)]
pub(super) fn put_over(content: &mut unnamed_yaml_event_t_data, new: unnamed_yaml_event_t_data)
    ensures { content.new ≡ new }
{
    mem::forget(mem::replace(content, new));
}

/// Drops a text, and keeps its memory.
#[inline(never)]
fn drop_text(spare: &mut String, text: &mut Option<String>)
    ensures { text.new ≡ None }
{
    if let Some(text) = text {
        release(spare, text);
    }
    *text = None;
}

/// Drops the properties of a node, and keeps the memory of one.
#[inline(never)]
fn drop_properties(spare: &mut String, anchor: &mut Option<String>, tag: &mut Option<String>)
    ensures anchor { anchor.new ≡ None }
    ensures tag { tag.new ≡ None }
{
    drop_text(spare, anchor);
    drop_text(spare, tag);
}

/// Puts a scalar without properties into `content`. Its text is moved out of its token, into whose place the
/// text of an earlier event goes.
#[inline(always)]
pub(super) fn put_bare_scalar(
    spare: &mut String,
    token: &mut unnamed_yaml_token_t_data_scalar,
    content: &mut unnamed_yaml_event_t_data,
)
    ensures { content.new ≡ scalar_with None None token.old.value (plain_flag None token.old.style)
        (quoted_flag None token.old.style) token.old.style }
{
    if let unnamed_yaml_event_t_data::Scalar(event) = content {
        let plain_implicit = is_plain(token.style);
        mem::swap(&mut event.value, &mut token.value);
        event.plain_implicit = plain_implicit;
        event.quoted_implicit = !plain_implicit;
        event.style = token.style;
        if event.anchor.is_some() || event.tag.is_some() {
            drop_properties(spare, &mut event.anchor, &mut event.tag);
        }
        return;
    }
    if let unnamed_yaml_event_t_data::NoEvent = content {
        let alloc = *spare.allocator();
        put_scalar_over(alloc, take_memory(alloc, spare), token, content);
        return;
    }
    replace_by_scalar(spare, token, content);
}

/// Puts a scalar without properties in place of `content`.
#[inline(never)]
fn replace_by_scalar(
    spare: &mut String,
    token: &mut unnamed_yaml_token_t_data_scalar,
    content: &mut unnamed_yaml_event_t_data,
)
    ensures { content.new ≡ scalar_with None None token.old.value (plain_flag None token.old.style)
        (quoted_flag None token.old.style) token.old.style }
{
    put_scalar_in_place(spare, token, content);
}

/// Puts a scalar without properties in place of `content`, inlined.
#[inline(always)]
fn put_scalar_in_place(
    spare: &mut String,
    token: &mut unnamed_yaml_token_t_data_scalar,
    content: &mut unnamed_yaml_event_t_data,
)
    ensures { content.new ≡ scalar_with None None token.old.value (plain_flag None token.old.style)
        (quoted_flag None token.old.style) token.old.style }
{
    let alloc = *spare.allocator();
    if let unnamed_yaml_event_t_data::Alias(event) = content {
        let text = take_memory(alloc, &mut event.anchor);
        put_scalar_over(alloc, text, token, content);
        return;
    }
    make_light(spare, content);
    let text = take_memory(alloc, spare);
    put_scalar_over(alloc, text, token, content);
}

/// Puts a scalar without properties over a content without memory, and this text into the token's place.
#[inline(always)]
fn put_scalar_over(
    alloc: Global,
    text: String,
    token: &mut unnamed_yaml_token_t_data_scalar,
    content: &mut unnamed_yaml_event_t_data,
)
    ensures { content.new ≡ scalar_with None None token.old.value (plain_flag None token.old.style)
        (quoted_flag None token.old.style) token.old.style }
{
    put_over(content, plain_scalar(None, None, String::new(alloc), true));
    if let unnamed_yaml_event_t_data::Scalar(event) = content {
        let value = in_words(mem::replace(&mut token.value, text));
        mem::forget(mem::replace(&mut event.value, value));
        let plain_implicit = is_plain(token.style);
        event.plain_implicit = plain_implicit;
        event.quoted_implicit = !plain_implicit;
        event.style = token.style;
    }
}

/// Puts a scalar after properties into `content`. Its anchor is moved out of what was read, and its text out
/// of its token, into whose place the text of an earlier event goes.
#[inline(always)]
pub(super) fn put_scalar(
    spare: &mut String,
    anchor: &mut Option<String>,
    tag: Option<String>,
    token: &mut unnamed_yaml_token_t_data_scalar,
    content: &mut unnamed_yaml_event_t_data,
)
    ensures { content.new ≡ scalar_with (option_map string_bytes anchor.old) (option_map string_bytes tag)
        token.old.value (plain_flag (option_map string_bytes tag) token.old.style)
        (quoted_flag (option_map string_bytes tag) token.old.style) token.old.style }
{
    if let unnamed_yaml_event_t_data::Scalar(event) = content {
        mem::swap(&mut event.value, &mut token.value);
        event.plain_implicit = is_plain_implicit(&tag, token.style);
        event.quoted_implicit = is_quoted_implicit(&tag, token.style);
        event.style = token.style;
        put_text(spare, tag, &mut event.tag);
        if anchor.is_some() || event.anchor.is_some() {
            move_text(spare, anchor, &mut event.anchor);
        }
        return;
    }
    let plain_implicit = is_plain_implicit(&tag, token.style);
    let quoted_implicit = is_quoted_implicit(&tag, token.style);
    make_light(spare, content);
    let later = take_memory(*spare.allocator(), spare);
    let scalar = unnamed_yaml_event_t_data_scalar {
        anchor: anchor.take(),
        tag,
        value: mem::replace(&mut token.value, later),
        plain_implicit,
        quoted_implicit,
        style: token.style,
    };
    put_over(content, unnamed_yaml_event_t_data::Scalar(scalar));
}

/// Puts a text into the place of another.
#[inline(always)]
fn put_text(spare: &mut String, text: Option<String>, place: &mut Option<String>)
    ensures { option_map string_bytes place.new ≡ option_map string_bytes text }
{
    if let Some(earlier) = place {
        release(spare, earlier);
    }
    mem::forget(mem::replace(place, text));
}

/// Moves a text, if there is one, into the place of another.
#[inline(always)]
fn move_text(spare: &mut String, text: &mut Option<String>, place: &mut Option<String>)
    ensures { option_map string_bytes place.new ≡ option_map string_bytes text.old }
{
    mem::swap(text, place);
    if text.is_some() {
        drop_text(spare, text);
    }
}

/// Puts a scalar after an anchor alone into `content`. Its anchor is moved out of what was read, and its text
/// out of its token, into whose place the text of an earlier event goes.
#[inline(always)]
pub(super) fn put_anchored_scalar(
    spare: &mut String,
    anchor: &mut Option<String>,
    token: &mut unnamed_yaml_token_t_data_scalar,
    content: &mut unnamed_yaml_event_t_data,
)
    ensures { content.new ≡ scalar_with (option_map string_bytes anchor.old) None token.old.value
        (plain_flag None token.old.style) (quoted_flag None token.old.style) token.old.style }
{
    if let unnamed_yaml_event_t_data::Alias(_) = content {
        put_scalar_in_place(spare, token, content);
    } else {
        put_bare_scalar(spare, token, content);
    }
    if let unnamed_yaml_event_t_data::Scalar(event) = content {
        mem::forget(mem::replace(&mut event.anchor, anchor.take()));
    }
}

/// Puts a scalar that is left out into `content`.
#[inline(always)]
pub(super) fn put_empty_scalar(spare: &mut String, content: &mut unnamed_yaml_event_t_data)
    ensures { content.new ≡ empty_scalar }
{
    if let unnamed_yaml_event_t_data::Scalar(event) = content {
        event.plain_implicit = true;
        event.quoted_implicit = false;
        event.style = yaml_scalar_style_t::YAML_PLAIN_SCALAR_STYLE;
        if event.anchor.is_some() || event.tag.is_some() {
            drop_properties(spare, &mut event.anchor, &mut event.tag);
        }
        event.value = String::new(*spare.allocator());
        return;
    }
    replace_by_empty_scalar(spare, content);
}

/// Puts a scalar that is left out in place of `content`.
#[inline(never)]
fn replace_by_empty_scalar(spare: &mut String, content: &mut unnamed_yaml_event_t_data)
    ensures { content.new ≡ empty_scalar }
{
    make_light(spare, content);
    let text = String::new(*spare.allocator());
    put_over(content, plain_scalar(None, None, text, true));
}

/// Puts the start of a sequence without properties into `content`.
#[inline(always)]
pub(super) fn put_sequence_start(
    style: yaml_sequence_style_t,
    spare: &mut String,
    content: &mut unnamed_yaml_event_t_data,
)
    ensures { content.new ≡ sequence_start_with None None style }
{
    if let unnamed_yaml_event_t_data::SequenceStart(event) = content {
        event.implicit = true;
        event.style = style;
        if event.anchor.is_some() || event.tag.is_some() {
            drop_properties(spare, &mut event.anchor, &mut event.tag);
        }
        return;
    }
    if let unnamed_yaml_event_t_data::NoEvent = content {
        put_over(content, sequence_start(None, None, style));
        return;
    }
    replace_by_sequence_start(style, spare, content);
}

/// Puts the start of a sequence without properties in place of `content`.
#[inline(never)]
fn replace_by_sequence_start(
    style: yaml_sequence_style_t,
    spare: &mut String,
    content: &mut unnamed_yaml_event_t_data,
)
    ensures { content.new ≡ sequence_start_with None None style }
{
    make_light(spare, content);
    put_over(content, sequence_start(None, None, style));
}

/// Puts the start of a mapping without properties into `content`.
#[inline(always)]
pub(super) fn put_mapping_start(
    style: yaml_mapping_style_t,
    spare: &mut String,
    content: &mut unnamed_yaml_event_t_data,
)
    ensures { content.new ≡ mapping_start_with None None style }
{
    if let unnamed_yaml_event_t_data::MappingStart(event) = content {
        event.implicit = true;
        event.style = style;
        if event.anchor.is_some() || event.tag.is_some() {
            drop_properties(spare, &mut event.anchor, &mut event.tag);
        }
        return;
    }
    if let unnamed_yaml_event_t_data::NoEvent = content {
        put_over(content, mapping_start(None, None, style));
        return;
    }
    replace_by_mapping_start(style, spare, content);
}

/// Puts the start of a mapping without properties in place of `content`.
#[inline(never)]
fn replace_by_mapping_start(
    style: yaml_mapping_style_t,
    spare: &mut String,
    content: &mut unnamed_yaml_event_t_data,
)
    ensures { content.new ≡ mapping_start_with None None style }
{
    make_light(spare, content);
    put_over(content, mapping_start(None, None, style));
}

/// Puts the end of a sequence into `content`.
#[inline(always)]
pub(super) fn put_sequence_end(spare: &mut String, content: &mut unnamed_yaml_event_t_data)
    ensures { content.new ≡ SequenceEnd }
{
    match content {
        unnamed_yaml_event_t_data::SequenceEnd => {}
        unnamed_yaml_event_t_data::NoEvent => put_over(
            content,
            unnamed_yaml_event_t_data::SequenceEnd,
        ),
        _ => replace_by_sequence_end(spare, content),
    }
}

/// Puts the end of a sequence in place of `content`.
#[inline(never)]
fn replace_by_sequence_end(spare: &mut String, content: &mut unnamed_yaml_event_t_data)
    ensures { content.new ≡ SequenceEnd }
{
    make_light(spare, content);
    put_over(content, unnamed_yaml_event_t_data::SequenceEnd);
}

/// Puts the end of a mapping into `content`.
#[inline(always)]
pub(super) fn put_mapping_end(spare: &mut String, content: &mut unnamed_yaml_event_t_data)
    ensures { content.new ≡ MappingEnd }
{
    match content {
        unnamed_yaml_event_t_data::MappingEnd => {}
        unnamed_yaml_event_t_data::NoEvent => put_over(
            content,
            unnamed_yaml_event_t_data::MappingEnd,
        ),
        _ => replace_by_mapping_end(spare, content),
    }
}

/// Puts the end of a mapping in place of `content`.
#[inline(never)]
fn replace_by_mapping_end(spare: &mut String, content: &mut unnamed_yaml_event_t_data)
    ensures { content.new ≡ MappingEnd }
{
    make_light(spare, content);
    put_over(content, unnamed_yaml_event_t_data::MappingEnd);
}

/// Puts an alias into `content`. Its name is moved out of its token, into whose place the text of an earlier
/// event goes.
#[inline(always)]
pub(super) fn put_alias(
    spare: &mut String,
    token: &mut unnamed_yaml_token_t_data_alias,
    content: &mut unnamed_yaml_event_t_data,
)
    ensures { content.new ≡ Alias (record { anchor = token.old.value }) }
{
    if let unnamed_yaml_event_t_data::Alias(event) = content {
        mem::swap(&mut event.anchor, &mut token.value);
        return;
    }
    replace_by_alias(spare, token, content);
}

/// Puts an alias in place of `content`. The memory of an earlier text goes into the token's place.
#[inline(never)]
fn replace_by_alias(
    spare: &mut String,
    token: &mut unnamed_yaml_token_t_data_alias,
    content: &mut unnamed_yaml_event_t_data,
)
    ensures { content.new ≡ Alias (record { anchor = token.old.value }) }
{
    let alloc = *spare.allocator();
    if let unnamed_yaml_event_t_data::Scalar(event) = content {
        drop_option(&mut event.anchor);
        drop_option(&mut event.tag);
        let text = take_memory(alloc, &mut event.value);
        put_alias_over(alloc, text, token, content);
        return;
    }
    make_light(spare, content);
    let text = take_memory(alloc, spare);
    put_alias_over(alloc, text, token, content);
}

/// Puts an alias over a content without memory, and this text into the token's place.
#[inline(always)]
fn put_alias_over(
    alloc: Global,
    text: String,
    token: &mut unnamed_yaml_token_t_data_alias,
    content: &mut unnamed_yaml_event_t_data,
)
    ensures { content.new ≡ Alias (record { anchor = token.old.value }) }
{
    put_over(content, alias_of(String::new(alloc)));
    if let unnamed_yaml_event_t_data::Alias(event) = content {
        let name = in_words(mem::replace(&mut token.value, text));
        mem::forget(mem::replace(&mut event.anchor, name));
    }
}

fn alias_of(anchor: String) -> unnamed_yaml_event_t_data
    ensures { result ≡ Alias (record { anchor = string_bytes anchor }) }
{
    unnamed_yaml_event_t_data::Alias(unnamed_yaml_event_t_data_alias { anchor })
}
