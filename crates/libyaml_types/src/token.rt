//! The tokens that a scanner gives.

ghost use Rattle.std.specs.Prelude.{◌≡◌};

use crate::enums::{yaml_encoding_t, yaml_scalar_style_t, yaml_token_type_t};
use crate::mark::yaml_mark_t;
use std::marker::Model;

/// STREAM-START: the encoding of the stream.
///
/// libyaml: `unnamed_yaml_token_t_data_stream_start`.
#[derive(PartialEq, Eq, Debug, Drop)]
pub struct unnamed_yaml_token_t_data_stream_start {
    /// The encoding of the stream.
    pub encoding: yaml_encoding_t,
}

/// VERSION-DIRECTIVE: `%YAML`, with its version.
///
/// libyaml: `unnamed_yaml_token_t_data_version_directive`.
#[derive(PartialEq, Eq, Debug, Drop)]
pub struct unnamed_yaml_token_t_data_version_directive {
    /// The number before the point.
    pub major: i32,
    /// The number after the point.
    pub minor: i32,
}

/// TAG-DIRECTIVE: `%TAG`, with its handle and prefix.
///
/// libyaml: `unnamed_yaml_token_t_data_tag_directive`.
#[derive(Debug, Drop)]
pub struct unnamed_yaml_token_t_data_tag_directive {
    /// The handle, as `!!`.
    pub handle: String,
    /// The prefix that replaces the handle.
    pub prefix: String,
}

impl Model for unnamed_yaml_token_t_data_tag_directive {
    ghost use Rattle.std.specs.Prelude.{string_bytes};
    ghost use Rattle.libyaml_types.specs.Models.{TagDirectiveToken};

    ghost Value = { TagDirectiveToken };

    ghost view = { λ s. record {
      handle = string_bytes s.handle;
      prefix = string_bytes s.prefix;
    } };
}

impl PartialEq for unnamed_yaml_token_t_data_tag_directive {
    ghost use Rattle.std.specs.Cmp.{partial_equiv_from_equiv};
    ghost use Rattle.libyaml_types.specs.Equal.{same_tag_directive_token, same_tag_directive_token_equiv};

    ghost eq = { same_tag_directive_token };

    ghost laws = { partial_equiv_from_equiv same_tag_directive_token_equiv };

    fn eq(&self, other: &Self) -> bool {
        self.handle == other.handle && self.prefix == other.prefix
    }
}

impl Eq for unnamed_yaml_token_t_data_tag_directive {
    ghost use Rattle.libyaml_types.specs.Equal.{same_tag_directive_token_equiv};

    ghost laws = { same_tag_directive_token_equiv };
}

/// ALIAS: `*`, with the anchor that it names.
///
/// libyaml: `unnamed_yaml_token_t_data_alias`.
#[derive(Debug, Drop)]
pub struct unnamed_yaml_token_t_data_alias {
    /// The name.
    pub value: String,
}

impl Model for unnamed_yaml_token_t_data_alias {
    ghost use Rattle.std.specs.Prelude.{string_bytes};
    ghost use Rattle.libyaml_types.specs.Models.{AliasToken};

    ghost Value = { AliasToken };

    ghost view = { λ s. record {
      value = string_bytes s.value;
    } };
}

impl PartialEq for unnamed_yaml_token_t_data_alias {
    ghost use Rattle.std.specs.Cmp.{partial_equiv_from_equiv};
    ghost use Rattle.libyaml_types.specs.Equal.{same_alias_token, same_alias_token_equiv};

    ghost eq = { same_alias_token };

    ghost laws = { partial_equiv_from_equiv same_alias_token_equiv };

    fn eq(&self, other: &Self) -> bool {
        self.value == other.value
    }
}

impl Eq for unnamed_yaml_token_t_data_alias {
    ghost use Rattle.libyaml_types.specs.Equal.{same_alias_token_equiv};

    ghost laws = { same_alias_token_equiv };
}

/// ANCHOR: `&`, with its name.
///
/// libyaml: `unnamed_yaml_token_t_data_anchor`.
#[derive(Debug, Drop)]
pub struct unnamed_yaml_token_t_data_anchor {
    /// The name.
    pub value: String,
}

impl Model for unnamed_yaml_token_t_data_anchor {
    ghost use Rattle.std.specs.Prelude.{string_bytes};
    ghost use Rattle.libyaml_types.specs.Models.{AnchorToken};

    ghost Value = { AnchorToken };

    ghost view = { λ s. record {
      value = string_bytes s.value;
    } };
}

impl PartialEq for unnamed_yaml_token_t_data_anchor {
    ghost use Rattle.std.specs.Cmp.{partial_equiv_from_equiv};
    ghost use Rattle.libyaml_types.specs.Equal.{same_anchor_token, same_anchor_token_equiv};

    ghost eq = { same_anchor_token };

    ghost laws = { partial_equiv_from_equiv same_anchor_token_equiv };

    fn eq(&self, other: &Self) -> bool {
        self.value == other.value
    }
}

impl Eq for unnamed_yaml_token_t_data_anchor {
    ghost use Rattle.libyaml_types.specs.Equal.{same_anchor_token_equiv};

    ghost laws = { same_anchor_token_equiv };
}

/// TAG: `!`, with its handle, which may be empty, and its suffix.
///
/// libyaml: `unnamed_yaml_token_t_data_tag`.
#[derive(Debug, Drop)]
pub struct unnamed_yaml_token_t_data_tag {
    /// The handle, as `!!`.
    pub handle: String,
    /// What follows the handle.
    pub suffix: String,
}

impl Model for unnamed_yaml_token_t_data_tag {
    ghost use Rattle.std.specs.Prelude.{string_bytes};
    ghost use Rattle.libyaml_types.specs.Models.{TagToken};

    ghost Value = { TagToken };

    ghost view = { λ s. record {
      handle = string_bytes s.handle;
      suffix = string_bytes s.suffix;
    } };
}

impl PartialEq for unnamed_yaml_token_t_data_tag {
    ghost use Rattle.std.specs.Cmp.{partial_equiv_from_equiv};
    ghost use Rattle.libyaml_types.specs.Equal.{same_tag_token, same_tag_token_equiv};

    ghost eq = { same_tag_token };

    ghost laws = { partial_equiv_from_equiv same_tag_token_equiv };

    fn eq(&self, other: &Self) -> bool {
        self.handle == other.handle && self.suffix == other.suffix
    }
}

impl Eq for unnamed_yaml_token_t_data_tag {
    ghost use Rattle.libyaml_types.specs.Equal.{same_tag_token_equiv};

    ghost laws = { same_tag_token_equiv };
}

/// SCALAR: a text and its style.
///
/// libyaml: `unnamed_yaml_token_t_data_scalar`.
#[derive(Debug, Drop)]
pub struct unnamed_yaml_token_t_data_scalar {
    /// The text.
    pub value: String,
    /// How it is written.
    pub style: yaml_scalar_style_t,
}

impl Model for unnamed_yaml_token_t_data_scalar {
    ghost use Rattle.std.specs.Prelude.{string_bytes};
    ghost use Rattle.libyaml_types.specs.Models.{ScalarToken};

    ghost Value = { ScalarToken };

    ghost view = { λ s. record {
      value = string_bytes s.value;
      style = s.style;
    } };
}

impl PartialEq for unnamed_yaml_token_t_data_scalar {
    ghost use Rattle.std.specs.Cmp.{partial_equiv_from_equiv};
    ghost use Rattle.libyaml_types.specs.Equal.{same_scalar_token, same_scalar_token_equiv};

    ghost eq = { same_scalar_token };

    ghost laws = { partial_equiv_from_equiv same_scalar_token_equiv };

    fn eq(&self, other: &Self) -> bool {
        self.value == other.value && self.style == other.style
    }
}

impl Eq for unnamed_yaml_token_t_data_scalar {
    ghost use Rattle.libyaml_types.specs.Equal.{same_scalar_token_equiv};

    ghost laws = { same_scalar_token_equiv };
}

/// What a token is, with its payload.
///
/// libyaml: the union `unnamed_yaml_token_t_data`.
#[derive(PartialEq, Eq, Debug, Drop)]
pub enum unnamed_yaml_token_t_data {
    /// Nothing.
    NoToken,
    /// The start of the stream.
    StreamStart(unnamed_yaml_token_t_data_stream_start),
    /// The end of the stream.
    StreamEnd,
    /// `%YAML`.
    VersionDirective(unnamed_yaml_token_t_data_version_directive),
    /// `%TAG`.
    TagDirective(unnamed_yaml_token_t_data_tag_directive),
    /// `---`.
    DocumentStart,
    /// `...`.
    DocumentEnd,
    /// The start of a block sequence.
    BlockSequenceStart,
    /// The start of a block mapping.
    BlockMappingStart,
    /// The end of a block sequence or mapping.
    BlockEnd,
    /// `[`.
    FlowSequenceStart,
    /// `]`.
    FlowSequenceEnd,
    /// `{`.
    FlowMappingStart,
    /// `}`.
    FlowMappingEnd,
    /// `-`.
    BlockEntry,
    /// `,`.
    FlowEntry,
    /// A key: `?`, or none for a simple key.
    Key,
    /// `:`.
    Value,
    /// An alias.
    Alias(unnamed_yaml_token_t_data_alias),
    /// An anchor.
    Anchor(unnamed_yaml_token_t_data_anchor),
    /// A tag.
    Tag(unnamed_yaml_token_t_data_tag),
    /// A scalar.
    Scalar(unnamed_yaml_token_t_data_scalar),
}

/// A token with the places at which it begins and ends.
///
/// libyaml: `yaml_token_t`.
#[derive(PartialEq, Eq, Debug, Drop)]
pub struct yaml_token_t {
    /// What it holds.
    pub content: unnamed_yaml_token_t_data,
    /// Where it begins.
    pub start_mark: yaml_mark_t,
    /// Where it ends.
    pub end_mark: yaml_mark_t,
}

impl yaml_token_t {
    ghost use Rattle.libyaml_types.specs.Types.{token_type};

    /// Returns the token of this content and these marks. Takes no memory.
    pub fn new(
        content: unnamed_yaml_token_t_data,
        start_mark: yaml_mark_t,
        end_mark: yaml_mark_t,
    ) -> Self
        ensures { result ≡ record { content = content; start_mark = start_mark; end_mark = end_mark } }
    {
        yaml_token_t {
            content,
            start_mark,
            end_mark,
        }
    }

    /// Returns the type of the token.
    ///
    /// libyaml: the field `type`.
    pub fn type_(&self) -> yaml_token_type_t
        ensures { result ≡ token_type self.now.content }
    {
        match &self.content {
            unnamed_yaml_token_t_data::NoToken => yaml_token_type_t::YAML_NO_TOKEN,
            unnamed_yaml_token_t_data::StreamStart(_) => yaml_token_type_t::YAML_STREAM_START_TOKEN,
            unnamed_yaml_token_t_data::StreamEnd => yaml_token_type_t::YAML_STREAM_END_TOKEN,
            unnamed_yaml_token_t_data::VersionDirective(_) =>
                yaml_token_type_t::YAML_VERSION_DIRECTIVE_TOKEN,
            unnamed_yaml_token_t_data::TagDirective(_) =>
                yaml_token_type_t::YAML_TAG_DIRECTIVE_TOKEN,
            unnamed_yaml_token_t_data::DocumentStart =>
                yaml_token_type_t::YAML_DOCUMENT_START_TOKEN,
            unnamed_yaml_token_t_data::DocumentEnd => yaml_token_type_t::YAML_DOCUMENT_END_TOKEN,
            unnamed_yaml_token_t_data::BlockSequenceStart =>
                yaml_token_type_t::YAML_BLOCK_SEQUENCE_START_TOKEN,
            unnamed_yaml_token_t_data::BlockMappingStart =>
                yaml_token_type_t::YAML_BLOCK_MAPPING_START_TOKEN,
            unnamed_yaml_token_t_data::BlockEnd => yaml_token_type_t::YAML_BLOCK_END_TOKEN,
            unnamed_yaml_token_t_data::FlowSequenceStart =>
                yaml_token_type_t::YAML_FLOW_SEQUENCE_START_TOKEN,
            unnamed_yaml_token_t_data::FlowSequenceEnd =>
                yaml_token_type_t::YAML_FLOW_SEQUENCE_END_TOKEN,
            unnamed_yaml_token_t_data::FlowMappingStart =>
                yaml_token_type_t::YAML_FLOW_MAPPING_START_TOKEN,
            unnamed_yaml_token_t_data::FlowMappingEnd =>
                yaml_token_type_t::YAML_FLOW_MAPPING_END_TOKEN,
            unnamed_yaml_token_t_data::BlockEntry => yaml_token_type_t::YAML_BLOCK_ENTRY_TOKEN,
            unnamed_yaml_token_t_data::FlowEntry => yaml_token_type_t::YAML_FLOW_ENTRY_TOKEN,
            unnamed_yaml_token_t_data::Key => yaml_token_type_t::YAML_KEY_TOKEN,
            unnamed_yaml_token_t_data::Value => yaml_token_type_t::YAML_VALUE_TOKEN,
            unnamed_yaml_token_t_data::Alias(_) => yaml_token_type_t::YAML_ALIAS_TOKEN,
            unnamed_yaml_token_t_data::Anchor(_) => yaml_token_type_t::YAML_ANCHOR_TOKEN,
            unnamed_yaml_token_t_data::Tag(_) => yaml_token_type_t::YAML_TAG_TOKEN,
            unnamed_yaml_token_t_data::Scalar(_) => yaml_token_type_t::YAML_SCALAR_TOKEN,
        }
    }
}
