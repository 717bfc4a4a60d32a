//! A source that copies tokens, each into the slot in which it is wanted, as a scanner makes it there.

ghost use Rattle.std.specs.Prelude.{◌≡◌, None, length};
ghost use Rattle.libyaml_types.specs.Fault.{memory_fault, source_fault};
ghost use Rattle.bench_lists.specs.Copying.{CopiesGive, gives_repeats};

use libyaml_events::{
    ZERO_MARK, unnamed_yaml_token_t_data, unnamed_yaml_token_t_data_alias,
    unnamed_yaml_token_t_data_anchor, unnamed_yaml_token_t_data_scalar,
    unnamed_yaml_token_t_data_stream_start, unnamed_yaml_token_t_data_tag,
    unnamed_yaml_token_t_data_tag_directive, unnamed_yaml_token_t_data_version_directive,
    yaml_error_type_t, yaml_source_fault_t, yaml_token_source_t, yaml_token_t,
};
use std::alloc::AllocError;
use std::marker::Model;
use std::mem;

/// Makes a copy of a token in a slot.
pub trait Copier {
    fn copy_into(
        &mut self,
        token: &yaml_token_t,
        slot: &mut yaml_token_t,
    ) -> Result<(), AllocError>;
}

/// Makes each text anew.
#[derive(Drop)]
pub struct Afresh;

impl Copier for Afresh {
    #[inline(always)]
    fn copy_into(
        &mut self,
        token: &yaml_token_t,
        slot: &mut yaml_token_t,
    ) -> Result<(), AllocError> {
        copy_into(token, slot)
    }
}

/// Copies of tokens, one after another, and then a fault for good.
#[derive(Drop)]
pub struct Copying<'a, C> {
    /// The tokens of which no copy was made yet.
    tokens: &'a [yaml_token_t],
    copier: C,
    fault: yaml_source_fault_t,
}

impl<'a, C> Model for Copying<'a, C> {
    ghost use Rattle.std.specs.Prelude.{length};
    ghost use Rattle.libyaml_types.specs.Fault.{source_fault};
    ghost use Rattle.bench_lists.specs.Copying.{Copies};

    ghost Value = { Copies };

    ghost view = { λ s. record { left = length s.tokens.now; fault = source_fault s.fault } };
}

impl<'a, C> Copying<'a, C> {
    /// A source of copies of these tokens. Takes no memory.
    pub fn new(tokens: &'a [yaml_token_t], copier: C) -> Self
        ensures { result.left ≡ length tokens.now }
    {
        let fault = end_of_list();
        Copying {
            tokens,
            copier,
            fault,
        }
    }

    /// Leaves no token, for out of memory.
    #[cold]
    fn break_off(&mut self)
        ensures { self.new ≡ record { left = 0; fault = memory_fault } }
    {
        self.tokens = &[];
        self.fault = yaml_source_fault_t::out_of_memory();
    }
}

impl<'a, C: Copier> yaml_token_source_t for Copying<'a, C> {
    ghost bound = { λ s. s.left };

    ghost gives = { CopiesGive };

    ghost known = { λ _. None };

    ghost may_break = { λ _ _. ⊥ };

    ghost falls = { λ s t token h. h.0 };

    ghost follows = { λ s t answer h. tt };

    ghost repeats = { gives_repeats };

    fn next_token(&mut self) -> Result<yaml_token_t, yaml_source_fault_t> {
        let mut token = no_token();
        self.next_token_into(&mut token)?;
        Ok(token)
    }

    #[inline(always)]
    fn next_token_into(&mut self, token: &mut yaml_token_t) -> Result<(), yaml_source_fault_t> {
        let Some((first, others)) = self.tokens.split_first() else {
            return Err(self.fault);
        };
        self.tokens = others;
        if self.copier.copy_into(first, token).is_err() {
            self.break_off();
            return Err(self.fault);
        }
        Ok(())
    }
}

/// The fault after the last token.
fn end_of_list() -> yaml_source_fault_t {
    let problem = Some("no more tokens");
    yaml_source_fault_t::new(
        yaml_error_type_t::YAML_READER_ERROR,
        problem,
        0,
        -1,
        ZERO_MARK,
        None,
        ZERO_MARK,
    )
}

/// A token for a slot.
pub fn no_token() -> yaml_token_t {
    yaml_token_t::new(unnamed_yaml_token_t_data::NoToken, ZERO_MARK, ZERO_MARK)
}

/// Makes a copy in a slot.
#[inline(always)]
pub fn copy_into(token: &yaml_token_t, slot: &mut yaml_token_t) -> Result<(), AllocError> {
    slot.start_mark = token.start_mark;
    slot.end_mark = token.end_mark;
    match &token.content {
        unnamed_yaml_token_t_data::Scalar(scalar) => copy_scalar(scalar, &mut slot.content),
        content => copy_other(content, &mut slot.content),
    }
}

/// Puts a content in the place of another. Which one that is is asked for by comparisons alone.
#[inline(always)]
pub(crate) fn put(content: unnamed_yaml_token_t_data, slot: &mut unnamed_yaml_token_t_data) {
    if !is_rare(slot) {
        mem::forget(mem::replace(slot, content));
        return;
    }
    let text = match slot {
        unnamed_yaml_token_t_data::Scalar(scalar) => &mut scalar.value,
        unnamed_yaml_token_t_data::Alias(alias) => &mut alias.value,
        unnamed_yaml_token_t_data::Anchor(anchor) => &mut anchor.value,
        _ => return put_any(content, slot),
    };
    let alloc = *text.allocator();
    let text = mem::replace(text, String::new(alloc));
    mem::forget(mem::replace(slot, content));
    mem::drop(text);
}

/// Drops a text in its place.
#[inline(always)]
fn drop_text(text: &mut String) {
    let alloc = *text.allocator();
    let text = mem::replace(text, String::new(alloc));
    mem::drop(text);
}

#[inline(never)]
fn put_any(content: unnamed_yaml_token_t_data, slot: &mut unnamed_yaml_token_t_data) {
    match slot {
        unnamed_yaml_token_t_data::Tag(tag) => {
            drop_text(&mut tag.handle);
            drop_text(&mut tag.suffix);
        }
        unnamed_yaml_token_t_data::TagDirective(directive) => {
            drop_text(&mut directive.handle);
            drop_text(&mut directive.prefix);
        }
        _ => {}
    }
    mem::forget(mem::replace(slot, content));
}

#[inline(never)]
fn copy_scalar(
    scalar: &unnamed_yaml_token_t_data_scalar,
    slot: &mut unnamed_yaml_token_t_data,
) -> Result<(), AllocError> {
    let value = scalar.value.clone()?;
    let style = scalar.style;
    if let unnamed_yaml_token_t_data::Tag(tag) = slot {
        drop_text(&mut tag.handle);
        drop_text(&mut tag.suffix);
        mem::forget(mem::replace(
            slot,
            unnamed_yaml_token_t_data::Scalar(unnamed_yaml_token_t_data_scalar { value, style }),
        ));
        return Ok(());
    }
    put(
        unnamed_yaml_token_t_data::Scalar(unnamed_yaml_token_t_data_scalar { value, style }),
        slot,
    );
    Ok(())
}

/// Returns a copy of a content without fields.
#[inline(always)]
pub(crate) fn bare(content: &unnamed_yaml_token_t_data) -> unnamed_yaml_token_t_data {
    use unnamed_yaml_token_t_data as Content;
    match content {
        Content::DocumentStart => Content::DocumentStart,
        Content::DocumentEnd => Content::DocumentEnd,
        Content::BlockSequenceStart => Content::BlockSequenceStart,
        Content::BlockMappingStart => Content::BlockMappingStart,
        Content::BlockEnd => Content::BlockEnd,
        Content::FlowSequenceStart => Content::FlowSequenceStart,
        Content::FlowSequenceEnd => Content::FlowSequenceEnd,
        Content::FlowMappingStart => Content::FlowMappingStart,
        Content::FlowMappingEnd => Content::FlowMappingEnd,
        Content::BlockEntry => Content::BlockEntry,
        Content::FlowEntry => Content::FlowEntry,
        Content::Key => Content::Key,
        _ => Content::Value,
    }
}

/// Returns whether a content has fields, or ends the stream.
#[inline(always)]
pub(crate) fn is_rare(content: &unnamed_yaml_token_t_data) -> bool {
    use unnamed_yaml_token_t_data as Content;
    match content {
        Content::DocumentStart
        | Content::DocumentEnd
        | Content::BlockSequenceStart
        | Content::BlockMappingStart
        | Content::BlockEnd
        | Content::FlowSequenceStart
        | Content::FlowSequenceEnd
        | Content::FlowMappingStart
        | Content::FlowMappingEnd
        | Content::BlockEntry
        | Content::FlowEntry
        | Content::Key
        | Content::Value => false,
        _ => true,
    }
}

#[inline(never)]
fn copy_other(
    content: &unnamed_yaml_token_t_data,
    slot: &mut unnamed_yaml_token_t_data,
) -> Result<(), AllocError> {
    if !is_rare(content) {
        put(bare(content), slot);
        return Ok(());
    }
    match content {
        unnamed_yaml_token_t_data::Alias(alias) => copy_alias(alias, slot),
        unnamed_yaml_token_t_data::Anchor(anchor) => copy_anchor(anchor, slot),
        unnamed_yaml_token_t_data::Tag(tag) => copy_tag_into(tag, slot),
        unnamed_yaml_token_t_data::TagDirective(directive) => copy_directive_into(directive, slot),
        _ => copy_rare(content, slot),
    }
}

#[inline(never)]
fn copy_alias(
    alias: &unnamed_yaml_token_t_data_alias,
    slot: &mut unnamed_yaml_token_t_data,
) -> Result<(), AllocError> {
    let value = alias.value.clone()?;
    put(
        unnamed_yaml_token_t_data::Alias(unnamed_yaml_token_t_data_alias { value }),
        slot,
    );
    Ok(())
}

#[inline(never)]
fn copy_directive_into(
    directive: &unnamed_yaml_token_t_data_tag_directive,
    slot: &mut unnamed_yaml_token_t_data,
) -> Result<(), AllocError> {
    let handle = directive.handle.clone()?;
    let prefix = directive.prefix.clone()?;
    put(
        unnamed_yaml_token_t_data::TagDirective(unnamed_yaml_token_t_data_tag_directive {
            handle,
            prefix,
        }),
        slot,
    );
    Ok(())
}

#[inline(never)]
fn copy_tag_into(
    tag: &unnamed_yaml_token_t_data_tag,
    slot: &mut unnamed_yaml_token_t_data,
) -> Result<(), AllocError> {
    let handle = tag.handle.clone()?;
    let suffix = tag.suffix.clone()?;
    put(
        unnamed_yaml_token_t_data::Tag(unnamed_yaml_token_t_data_tag { handle, suffix }),
        slot,
    );
    Ok(())
}

#[inline(never)]
fn copy_anchor(
    anchor: &unnamed_yaml_token_t_data_anchor,
    slot: &mut unnamed_yaml_token_t_data,
) -> Result<(), AllocError> {
    let value = anchor.value.clone()?;
    put(
        unnamed_yaml_token_t_data::Anchor(unnamed_yaml_token_t_data_anchor { value }),
        slot,
    );
    Ok(())
}

#[inline(never)]
fn copy_rare(
    content: &unnamed_yaml_token_t_data,
    slot: &mut unnamed_yaml_token_t_data,
) -> Result<(), AllocError> {
    *slot = copied_rare(content)?;
    Ok(())
}

/// Returns a copy of a token's content that is neither bare nor a scalar's.
fn copied_rare(
    content: &unnamed_yaml_token_t_data,
) -> Result<unnamed_yaml_token_t_data, AllocError> {
    use unnamed_yaml_token_t_data as Content;
    match content {
        Content::Alias(alias) => {
            let value = alias.value.clone()?;
            Ok(Content::Alias(unnamed_yaml_token_t_data_alias { value }))
        }
        Content::Anchor(anchor) => {
            let value = anchor.value.clone()?;
            Ok(Content::Anchor(unnamed_yaml_token_t_data_anchor { value }))
        }
        Content::Tag(tag) => Ok(Content::Tag(copy_tag(tag)?)),
        Content::TagDirective(directive) => {
            Ok(Content::TagDirective(copy_directive(directive)?))
        }
        _ => Ok(copied_small(content)),
    }
}

/// Returns a copy of a token's content that has no text.
pub(crate) fn copied_small(content: &unnamed_yaml_token_t_data) -> unnamed_yaml_token_t_data {
    use unnamed_yaml_token_t_data as Content;
    match content {
        Content::StreamStart(start) => {
            let encoding = start.encoding;
            Content::StreamStart(unnamed_yaml_token_t_data_stream_start { encoding })
        }
        Content::VersionDirective(version) => {
            let (major, minor) = (version.major, version.minor);
            let version = unnamed_yaml_token_t_data_version_directive { major, minor };
            Content::VersionDirective(version)
        }
        Content::StreamEnd => Content::StreamEnd,
        _ => Content::NoToken,
    }
}

fn copy_tag(
    tag: &unnamed_yaml_token_t_data_tag,
) -> Result<unnamed_yaml_token_t_data_tag, AllocError> {
    Ok(unnamed_yaml_token_t_data_tag {
        handle: tag.handle.clone()?,
        suffix: tag.suffix.clone()?,
    })
}

pub(crate) fn copy_directive(
    directive: &unnamed_yaml_token_t_data_tag_directive,
) -> Result<unnamed_yaml_token_t_data_tag_directive, AllocError> {
    Ok(unnamed_yaml_token_t_data_tag_directive {
        handle: directive.handle.clone()?,
        prefix: directive.prefix.clone()?,
    })
}
