//! What is known of a node's properties.
ghost use Rattle.std.specs.Prelude.{◌≡◌};
ghost use Rattle.token_steps.specs.Facts as facts;
ghost use Rattle.token_steps.specs.Records.{head_tag, is_undefined};

use libyaml_types::yaml_mark_t;

/// What is known of a node's properties. If there is a tag, `tag` is the fact of its token.
#[derive(Copy, Clone)]
pub(crate) struct Head {
    pub has_anchor: u8,
    pub has_tag: u8,
    pub tag: u8,
}

/// A node's properties: what is known of them, and where they begin and end.
#[derive(Copy, Clone)]
pub(crate) struct Properties<'a> {
    pub(crate) head: &'a Head,
    pub(crate) start_mark: &'a yaml_mark_t,
    pub(crate) end_mark: &'a yaml_mark_t,
}

/// No property.
pub(crate) const NO_HEAD: Head = Head {
    has_anchor: 0,
    has_tag: 0,
    tag: 0,
};

impl Head {
    /// Returns whether there is no tag, or an empty one.
    #[inline(always)]
    pub(crate) fn is_missing(&self) -> bool
        ensures { result ≡ facts.is_no_tag (head_tag self.now) }
    {
        self.has_tag == 0 || self.tag == 1
    }

    /// Returns whether the tag may be left out if a scalar is written plain.
    #[inline(always)]
    pub(crate) fn plain_flag(&self, is_plain: bool) -> bool
        ensures { result ≡ facts.plain_flag_for (head_tag self.now) is_plain }
    {
        if self.has_tag == 0 {
            is_plain
        } else {
            self.tag == 2
        }
    }

    /// Returns whether it may be left out if a scalar isn't.
    #[inline(always)]
    pub(crate) fn quoted_flag(&self, is_plain: bool) -> bool
        ensures { result ≡ facts.quoted_flag_for (head_tag self.now) is_plain }
    {
        self.has_tag == 0 && !is_plain
    }

    /// Returns whether the handle of the tag isn't declared.
    #[inline(always)]
    pub(crate) fn is_undefined(&self) -> bool
        ensures { result ≡ is_undefined (head_tag self.now) }
    {
        self.has_tag != 0 && !matches!(self.tag, 1 | 2 | 3)
    }
}
