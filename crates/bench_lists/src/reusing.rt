//! A copier that makes a text in the memory of an earlier one, as the parser hands it back in the token's
//! slot.

use crate::copying::{Copier, bare, copied_small, copy_directive, is_rare, put};
use libyaml_events::{
    unnamed_yaml_token_t_data, unnamed_yaml_token_t_data_alias, unnamed_yaml_token_t_data_anchor,
    unnamed_yaml_token_t_data_scalar, unnamed_yaml_token_t_data_tag, yaml_token_t,
};
use std::alloc::{AllocError, Global};
use std::mem;

/// The texts of earlier tokens, in whose memory later ones are made.
#[derive(Drop)]
pub struct Reusing {
    text: String,
    handle: String,
    suffix: String,
}

impl Reusing {
    /// Keeps no text yet. Takes no memory.
    pub fn new(alloc: Global) -> Self {
        Reusing {
            text: String::new(alloc),
            handle: String::new(alloc),
            suffix: String::new(alloc),
        }
    }

    /// Keeps the texts of a content that is to be replaced.
    #[inline(always)]
    fn keep_texts(&mut self, slot: &mut unnamed_yaml_token_t_data) {
        use unnamed_yaml_token_t_data as Content;
        match slot {
            Content::Scalar(scalar) => keep(&mut scalar.value, &mut self.text),
            Content::Alias(_) | Content::Anchor(_) | Content::Tag(_) => self.keep_rare(slot),
            _ => {}
        }
    }

    #[inline(never)]
    fn keep_rare(&mut self, slot: &mut unnamed_yaml_token_t_data) {
        use unnamed_yaml_token_t_data as Content;
        match slot {
            Content::Alias(alias) => keep(&mut alias.value, &mut self.text),
            Content::Anchor(anchor) => keep(&mut anchor.value, &mut self.text),
            Content::Tag(tag) => {
                keep(&mut tag.handle, &mut self.handle);
                keep(&mut tag.suffix, &mut self.suffix);
            }
            _ => {}
        }
    }

    #[inline(never)]
    fn copy_scalar(
        &mut self,
        scalar: &unnamed_yaml_token_t_data_scalar,
        slot: &mut unnamed_yaml_token_t_data,
    ) -> Result<(), AllocError> {
        self.keep_texts(slot);
        let value = copied(&scalar.value, &mut self.text)?;
        let style = scalar.style;
        put(
            unnamed_yaml_token_t_data::Scalar(unnamed_yaml_token_t_data_scalar { value, style }),
            slot,
        );
        Ok(())
    }

    /// Copies a content that is no scalar.
    #[inline(never)]
    fn copy_other(
        &mut self,
        content: &unnamed_yaml_token_t_data,
        slot: &mut unnamed_yaml_token_t_data,
    ) -> Result<(), AllocError> {
        use unnamed_yaml_token_t_data as Content;
        if is_rare(slot) {
            self.keep_texts(slot);
        }
        if !is_rare(content) {
            put(bare(content), slot);
            return Ok(());
        }
        match content {
            Content::Alias(alias) => self.copy_alias(alias, slot),
            Content::Anchor(anchor) => self.copy_anchor(anchor, slot),
            Content::Tag(tag) => self.copy_tag(tag, slot),
            _ => copy_rare(content, slot),
        }
    }

    #[inline(never)]
    fn copy_alias(
        &mut self,
        alias: &unnamed_yaml_token_t_data_alias,
        slot: &mut unnamed_yaml_token_t_data,
    ) -> Result<(), AllocError> {
        let value = copied(&alias.value, &mut self.text)?;
        put(
            unnamed_yaml_token_t_data::Alias(unnamed_yaml_token_t_data_alias { value }),
            slot,
        );
        Ok(())
    }

    #[inline(never)]
    fn copy_anchor(
        &mut self,
        anchor: &unnamed_yaml_token_t_data_anchor,
        slot: &mut unnamed_yaml_token_t_data,
    ) -> Result<(), AllocError> {
        let value = copied(&anchor.value, &mut self.text)?;
        put(
            unnamed_yaml_token_t_data::Anchor(unnamed_yaml_token_t_data_anchor { value }),
            slot,
        );
        Ok(())
    }

    #[inline(never)]
    fn copy_tag(
        &mut self,
        tag: &unnamed_yaml_token_t_data_tag,
        slot: &mut unnamed_yaml_token_t_data,
    ) -> Result<(), AllocError> {
        let handle = copied(&tag.handle, &mut self.handle)?;
        let suffix = copied(&tag.suffix, &mut self.suffix)?;
        put(
            unnamed_yaml_token_t_data::Tag(unnamed_yaml_token_t_data_tag { handle, suffix }),
            slot,
        );
        Ok(())
    }
}

impl Copier for Reusing {
    #[inline(always)]
    fn copy_into(
        &mut self,
        token: &yaml_token_t,
        slot: &mut yaml_token_t,
    ) -> Result<(), AllocError> {
        slot.start_mark = token.start_mark;
        slot.end_mark = token.end_mark;
        match &token.content {
            unnamed_yaml_token_t_data::Scalar(scalar) => self.copy_scalar(
                scalar,
                &mut slot.content,
            ),
            content => self.copy_other(content, &mut slot.content),
        }
    }
}

/// Keeps a text in the place of one with less memory.
#[inline(always)]
fn keep(text: &mut String, spare: &mut String) {
    if text.capacity() > spare.capacity() {
        mem::swap(text, spare);
    }
}

/// Returns a copy of a text, in the memory of an earlier one where that has room.
#[inline(always)]
fn copied(text: &String, spare: &mut String) -> Result<String, AllocError> {
    if spare.capacity() < text.len() {
        return text.clone();
    }
    spare.clear();
    spare.push_str(text.as_str())?;
    let alloc = *spare.allocator();
    Ok(mem::replace(spare, String::new(alloc)))
}

/// Copies a rare content.
#[inline(never)]
fn copy_rare(
    content: &unnamed_yaml_token_t_data,
    slot: &mut unnamed_yaml_token_t_data,
) -> Result<(), AllocError> {
    *slot = match content {
        unnamed_yaml_token_t_data::TagDirective(directive) => {
            unnamed_yaml_token_t_data::TagDirective(copy_directive(directive)?)
        }
        _ => copied_small(content),
    };
    Ok(())
}
