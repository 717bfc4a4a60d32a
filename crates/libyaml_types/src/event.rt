//! The events that a parser gives.

ghost use Rattle.std.specs.Prelude.{◌≡◌};
ghost use Rattle.std.specs.Option.{option_copied};

use crate::directive::{yaml_tag_directive_t, yaml_version_directive_t};
use crate::enums::{
    yaml_encoding_t, yaml_event_type_t, yaml_mapping_style_t, yaml_scalar_style_t,
    yaml_sequence_style_t,
};
use crate::mark::yaml_mark_t;
use std::marker::Model;

/// The start of a stream, in an encoding.
///
/// libyaml: `unnamed_yaml_event_t_data_stream_start`.
#[derive(PartialEq, Eq, Debug, Drop)]
pub struct unnamed_yaml_event_t_data_stream_start {
    /// The encoding of the stream.
    pub encoding: yaml_encoding_t,
}

/// The start of a document: its directives, and whether it has no DOCUMENT-START.
///
/// libyaml: `unnamed_yaml_event_t_data_document_start`.
#[derive(Debug, Drop)]
pub struct unnamed_yaml_event_t_data_document_start {
    /// The version, if one is given.
    pub version_directive: Option<yaml_version_directive_t>,
    /// The tag directives.
    pub tag_directives: Vec<yaml_tag_directive_t>,
    /// Whether no `---` is written.
    pub implicit: bool,
}

impl Model for unnamed_yaml_event_t_data_document_start {
    ghost use Rattle.libyaml_types.specs.Models.{DocumentStart};

    ghost Value = { DocumentStart };

    ghost view = { λ s. record {
      version_directive = s.version_directive;
      tag_directives = s.tag_directives.items;
      implicit = s.implicit;
    } };
}

impl PartialEq for unnamed_yaml_event_t_data_document_start {
    ghost use Rattle.std.specs.Cmp.{partial_equiv_from_equiv};
    ghost use Rattle.libyaml_types.specs.Equal.{same_document_start, same_document_start_equiv};

    ghost eq = { same_document_start };

    ghost laws = { partial_equiv_from_equiv same_document_start_equiv };

    fn eq(&self, other: &Self) -> bool {
        self.version_directive == other.version_directive
            && self.tag_directives == other.tag_directives
            && self.implicit == other.implicit
    }
}

impl Eq for unnamed_yaml_event_t_data_document_start {
    ghost use Rattle.libyaml_types.specs.Equal.{same_document_start_equiv};

    ghost laws = { same_document_start_equiv };
}

/// The end of a document: whether it has no DOCUMENT-END.
///
/// libyaml: `unnamed_yaml_event_t_data_document_end`.
#[derive(PartialEq, Eq, Debug, Drop)]
pub struct unnamed_yaml_event_t_data_document_end {
    /// Whether no `...` is written.
    pub implicit: bool,
}

/// An alias of the node with this anchor.
///
/// libyaml: `unnamed_yaml_event_t_data_alias`.
#[derive(Debug, Drop)]
pub struct unnamed_yaml_event_t_data_alias {
    /// The name of the anchor.
    pub anchor: String,
}

impl Model for unnamed_yaml_event_t_data_alias {
    ghost use Rattle.std.specs.Prelude.{string_bytes};
    ghost use Rattle.libyaml_types.specs.Models.{Alias};

    ghost Value = { Alias };

    ghost view = { λ s. record {
      anchor = string_bytes s.anchor;
    } };
}

impl PartialEq for unnamed_yaml_event_t_data_alias {
    ghost use Rattle.std.specs.Cmp.{partial_equiv_from_equiv};
    ghost use Rattle.libyaml_types.specs.Equal.{same_alias, same_alias_equiv};

    ghost eq = { same_alias };

    ghost laws = { partial_equiv_from_equiv same_alias_equiv };

    fn eq(&self, other: &Self) -> bool {
        self.anchor == other.anchor
    }
}

impl Eq for unnamed_yaml_event_t_data_alias {
    ghost use Rattle.libyaml_types.specs.Equal.{same_alias_equiv};

    ghost laws = { same_alias_equiv };
}

/// A scalar: its properties, its text, and whether its tag may be left out, by the style that it is written
/// in.
///
/// libyaml: `unnamed_yaml_event_t_data_scalar`.
#[derive(Debug, Drop)]
pub struct unnamed_yaml_event_t_data_scalar {
    /// The name of its anchor, if it has one.
    pub anchor: Option<String>,
    /// The tag, if one is given.
    pub tag: Option<String>,
    /// The text.
    pub value: String,
    /// Whether the tag may be left out if the scalar is written plain.
    pub plain_implicit: bool,
    /// Whether the tag may be left out if the scalar is written in any other style.
    pub quoted_implicit: bool,
    /// How it is written.
    pub style: yaml_scalar_style_t,
}

impl Model for unnamed_yaml_event_t_data_scalar {
    ghost use Rattle.std.specs.Prelude.{option_map, string_bytes};
    ghost use Rattle.libyaml_types.specs.Models.{Scalar};

    ghost Value = { Scalar };

    ghost view = { λ s. record {
      anchor = option_map string_bytes s.anchor;
      tag = option_map string_bytes s.tag;
      value = string_bytes s.value;
      plain_implicit = s.plain_implicit;
      quoted_implicit = s.quoted_implicit;
      style = s.style;
    } };
}

impl PartialEq for unnamed_yaml_event_t_data_scalar {
    ghost use Rattle.std.specs.Cmp.{partial_equiv_from_equiv};
    ghost use Rattle.libyaml_types.specs.Equal.{same_scalar, same_scalar_equiv};

    ghost eq = { same_scalar };

    ghost laws = { partial_equiv_from_equiv same_scalar_equiv };

    fn eq(&self, other: &Self) -> bool {
        self.anchor == other.anchor
            && self.tag == other.tag
            && self.value == other.value
            && self.plain_implicit == other.plain_implicit
            && self.quoted_implicit == other.quoted_implicit
            && self.style == other.style
    }
}

impl Eq for unnamed_yaml_event_t_data_scalar {
    ghost use Rattle.libyaml_types.specs.Equal.{same_scalar_equiv};

    ghost laws = { same_scalar_equiv };
}

/// The start of a sequence: `implicit` if its tag may be left out.
///
/// libyaml: `unnamed_yaml_event_t_data_sequence_start`.
#[derive(Debug, Drop)]
pub struct unnamed_yaml_event_t_data_sequence_start {
    /// The name of its anchor, if it has one.
    pub anchor: Option<String>,
    /// The tag, if one is given.
    pub tag: Option<String>,
    /// Whether the tag may be left out.
    pub implicit: bool,
    /// How it is written.
    pub style: yaml_sequence_style_t,
}

impl Model for unnamed_yaml_event_t_data_sequence_start {
    ghost use Rattle.std.specs.Prelude.{option_map, string_bytes};
    ghost use Rattle.libyaml_types.specs.Models.{SequenceStart};

    ghost Value = { SequenceStart };

    ghost view = { λ s. record {
      anchor = option_map string_bytes s.anchor;
      tag = option_map string_bytes s.tag;
      implicit = s.implicit;
      style = s.style;
    } };
}

impl PartialEq for unnamed_yaml_event_t_data_sequence_start {
    ghost use Rattle.std.specs.Cmp.{partial_equiv_from_equiv};
    ghost use Rattle.libyaml_types.specs.Equal.{same_sequence_start, same_sequence_start_equiv};

    ghost eq = { same_sequence_start };

    ghost laws = { partial_equiv_from_equiv same_sequence_start_equiv };

    fn eq(&self, other: &Self) -> bool {
        self.anchor == other.anchor
            && self.tag == other.tag
            && self.implicit == other.implicit
            && self.style == other.style
    }
}

impl Eq for unnamed_yaml_event_t_data_sequence_start {
    ghost use Rattle.libyaml_types.specs.Equal.{same_sequence_start_equiv};

    ghost laws = { same_sequence_start_equiv };
}

/// The start of a mapping: `implicit` if its tag may be left out.
///
/// libyaml: `unnamed_yaml_event_t_data_mapping_start`.
#[derive(Debug, Drop)]
pub struct unnamed_yaml_event_t_data_mapping_start {
    /// The name of its anchor, if it has one.
    pub anchor: Option<String>,
    /// The tag, if one is given.
    pub tag: Option<String>,
    /// Whether the tag may be left out.
    pub implicit: bool,
    /// How it is written.
    pub style: yaml_mapping_style_t,
}

impl Model for unnamed_yaml_event_t_data_mapping_start {
    ghost use Rattle.std.specs.Prelude.{option_map, string_bytes};
    ghost use Rattle.libyaml_types.specs.Models.{MappingStart};

    ghost Value = { MappingStart };

    ghost view = { λ s. record {
      anchor = option_map string_bytes s.anchor;
      tag = option_map string_bytes s.tag;
      implicit = s.implicit;
      style = s.style;
    } };
}

impl PartialEq for unnamed_yaml_event_t_data_mapping_start {
    ghost use Rattle.std.specs.Cmp.{partial_equiv_from_equiv};
    ghost use Rattle.libyaml_types.specs.Equal.{same_mapping_start, same_mapping_start_equiv};

    ghost eq = { same_mapping_start };

    ghost laws = { partial_equiv_from_equiv same_mapping_start_equiv };

    fn eq(&self, other: &Self) -> bool {
        self.anchor == other.anchor
            && self.tag == other.tag
            && self.implicit == other.implicit
            && self.style == other.style
    }
}

impl Eq for unnamed_yaml_event_t_data_mapping_start {
    ghost use Rattle.libyaml_types.specs.Equal.{same_mapping_start_equiv};

    ghost laws = { same_mapping_start_equiv };
}

/// What an event is, with its payload.
///
/// libyaml: the union `unnamed_yaml_event_t_data`.
#[derive(PartialEq, Eq, Debug, Drop)]
pub enum unnamed_yaml_event_t_data {
    /// Nothing.
    NoEvent,
    /// The start of the stream.
    StreamStart(unnamed_yaml_event_t_data_stream_start),
    /// The end of the stream.
    StreamEnd,
    /// The start of a document.
    DocumentStart(unnamed_yaml_event_t_data_document_start),
    /// The end of a document.
    DocumentEnd(unnamed_yaml_event_t_data_document_end),
    /// An alias.
    Alias(unnamed_yaml_event_t_data_alias),
    /// A scalar.
    Scalar(unnamed_yaml_event_t_data_scalar),
    /// The start of a sequence.
    SequenceStart(unnamed_yaml_event_t_data_sequence_start),
    /// The end of a sequence.
    SequenceEnd,
    /// The start of a mapping.
    MappingStart(unnamed_yaml_event_t_data_mapping_start),
    /// The end of a mapping.
    MappingEnd,
}

/// An event with the places at which it begins and ends.
///
/// libyaml: `yaml_event_t`.
#[derive(PartialEq, Eq, Debug, Drop)]
pub struct yaml_event_t {
    /// What it holds.
    pub content: unnamed_yaml_event_t_data,
    /// Where it begins.
    pub start_mark: yaml_mark_t,
    /// Where it ends.
    pub end_mark: yaml_mark_t,
}

impl yaml_event_t {
    ghost use Rattle.libyaml_types.specs.Types.{event_type, event_anchor};

    /// Returns the type of the event.
    ///
    /// libyaml: the field `type`.
    pub fn type_(&self) -> yaml_event_type_t
        ensures { result ≡ event_type self.now.content }
    {
        match &self.content {
            unnamed_yaml_event_t_data::NoEvent => yaml_event_type_t::YAML_NO_EVENT,
            unnamed_yaml_event_t_data::StreamStart(_) => yaml_event_type_t::YAML_STREAM_START_EVENT,
            unnamed_yaml_event_t_data::StreamEnd => yaml_event_type_t::YAML_STREAM_END_EVENT,
            unnamed_yaml_event_t_data::DocumentStart(_) =>
                yaml_event_type_t::YAML_DOCUMENT_START_EVENT,
            unnamed_yaml_event_t_data::DocumentEnd(_) => yaml_event_type_t::YAML_DOCUMENT_END_EVENT,
            unnamed_yaml_event_t_data::Alias(_) => yaml_event_type_t::YAML_ALIAS_EVENT,
            unnamed_yaml_event_t_data::Scalar(_) => yaml_event_type_t::YAML_SCALAR_EVENT,
            unnamed_yaml_event_t_data::SequenceStart(_) =>
                yaml_event_type_t::YAML_SEQUENCE_START_EVENT,
            unnamed_yaml_event_t_data::SequenceEnd => yaml_event_type_t::YAML_SEQUENCE_END_EVENT,
            unnamed_yaml_event_t_data::MappingStart(_) =>
                yaml_event_type_t::YAML_MAPPING_START_EVENT,
            unnamed_yaml_event_t_data::MappingEnd => yaml_event_type_t::YAML_MAPPING_END_EVENT,
        }
    }

    /// Returns the anchor of a scalar, of the start of a sequence or of a mapping, if it has one, and the
    /// anchor that an alias names. For each other event: `None`.
    ///
    /// libyaml: the field `anchor` of these four.
    pub fn anchor(&self) -> Option<&str>
        ensures { option_copied result ≡ event_anchor self.now.content }
    {
        match &self.content {
            unnamed_yaml_event_t_data::Alias(alias) => Some(alias.anchor.as_str()),
            unnamed_yaml_event_t_data::Scalar(scalar) => scalar.anchor.as_deref(),
            unnamed_yaml_event_t_data::SequenceStart(start) => start.anchor.as_deref(),
            unnamed_yaml_event_t_data::MappingStart(start) => start.anchor.as_deref(),
            _ => None,
        }
    }
}
