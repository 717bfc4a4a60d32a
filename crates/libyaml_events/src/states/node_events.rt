//! The flags that a tag and a style give to a node's event, and contents with them.
ghost use Rattle.std.specs.Prelude.{◌≡◌, false, option_map, string_bytes};
ghost use Rattle.libyaml_types.specs.declared.enums.yaml_scalar_style_t.TheVariants.{YAML_PLAIN_SCALAR_STYLE};
ghost use Rattle.libyaml_grammar.specs.grammar.Events.{is_plain, plain_flag, quoted_flag, is_missing};
ghost use Rattle.libyaml_events.specs.machine.Machine.{scalar_with, sequence_start_with, mapping_start_with};
ghost use Rattle.libyaml_events.specs.automaton.AutomatonResults.{collection_start};

use crate::texts::is_text;
use libyaml_types::{
    unnamed_yaml_event_t_data, unnamed_yaml_event_t_data_mapping_start,
    unnamed_yaml_event_t_data_scalar, unnamed_yaml_event_t_data_sequence_start,
    unnamed_yaml_token_t_data, yaml_mapping_style_t, yaml_scalar_style_t, yaml_sequence_style_t,
};

pub(super) fn is_plain(style: yaml_scalar_style_t) -> bool
    ensures { result ≡ is_plain style }
{
    match style {
        yaml_scalar_style_t::YAML_PLAIN_SCALAR_STYLE => true,
        yaml_scalar_style_t::YAML_ANY_SCALAR_STYLE
        | yaml_scalar_style_t::YAML_SINGLE_QUOTED_SCALAR_STYLE
        | yaml_scalar_style_t::YAML_DOUBLE_QUOTED_SCALAR_STYLE
        | yaml_scalar_style_t::YAML_LITERAL_SCALAR_STYLE
        | yaml_scalar_style_t::YAML_FOLDED_SCALAR_STYLE => false,
    }
}

/// Whether a scalar's tag may be left out if it is written plain.
pub(super) fn is_plain_implicit(tag: &Option<String>, style: yaml_scalar_style_t) -> bool
    ensures { result ≡ plain_flag (option_map string_bytes tag.now) style }
{
    match tag {
        None => is_plain(style),
        Some(tag) => is_text(tag.as_str(), "!"),
    }
}

/// Whether a scalar's tag may be left out if it is not written plain.
pub(super) fn is_quoted_implicit(tag: &Option<String>, style: yaml_scalar_style_t) -> bool
    ensures { result ≡ quoted_flag (option_map string_bytes tag.now) style }
{
    match tag {
        None => !is_plain(style),
        Some(_) => false,
    }
}

/// Whether there is no tag, or an empty one.
pub(super) fn is_missing(tag: &Option<String>) -> bool
    ensures { result ≡ is_missing (option_map string_bytes tag.now) }
{
    match tag {
        None => true,
        Some(tag) => tag.is_empty(),
    }
}

/// A plain scalar whose tag may be left out only if it is written plain.
pub(super) fn plain_scalar(
    anchor: Option<String>,
    tag: Option<String>,
    value: String,
    plain_implicit: bool,
) -> unnamed_yaml_event_t_data
    ensures { result ≡ scalar_with (option_map string_bytes anchor) (option_map string_bytes tag)
        (string_bytes value) plain_implicit false YAML_PLAIN_SCALAR_STYLE }
{
    unnamed_yaml_event_t_data::Scalar(unnamed_yaml_event_t_data_scalar {
        anchor,
        tag,
        value,
        plain_implicit,
        quoted_implicit: false,
        style: yaml_scalar_style_t::YAML_PLAIN_SCALAR_STYLE,
    })
}

pub(super) fn sequence_start(
    anchor: Option<String>,
    tag: Option<String>,
    style: yaml_sequence_style_t,
) -> unnamed_yaml_event_t_data
    ensures { result ≡ sequence_start_with (option_map string_bytes anchor) (option_map string_bytes tag)
        style }
{
    let implicit = is_missing(&tag);
    unnamed_yaml_event_t_data::SequenceStart(unnamed_yaml_event_t_data_sequence_start {
        anchor,
        tag,
        implicit,
        style,
    })
}

pub(super) fn mapping_start(
    anchor: Option<String>,
    tag: Option<String>,
    style: yaml_mapping_style_t,
) -> unnamed_yaml_event_t_data
    ensures { result ≡ mapping_start_with (option_map string_bytes anchor) (option_map string_bytes tag)
        style }
{
    let implicit = is_missing(&tag);
    unnamed_yaml_event_t_data::MappingStart(unnamed_yaml_event_t_data_mapping_start {
        anchor,
        tag,
        implicit,
        style,
    })
}

/// The start of the collection that this token opens.
pub(super) fn collection_start(
    anchor: Option<String>,
    tag: Option<String>,
    token: &unnamed_yaml_token_t_data,
) -> unnamed_yaml_event_t_data
    ensures { result ≡ collection_start (option_map string_bytes anchor) (option_map string_bytes tag)
        token.now }
{
    match token {
        unnamed_yaml_token_t_data::BlockSequenceStart => {
            sequence_start(
                anchor,
                tag,
                yaml_sequence_style_t::YAML_BLOCK_SEQUENCE_STYLE,
            )
        }
        unnamed_yaml_token_t_data::FlowSequenceStart => {
            sequence_start(anchor, tag, yaml_sequence_style_t::YAML_FLOW_SEQUENCE_STYLE)
        }
        unnamed_yaml_token_t_data::FlowMappingStart => {
            mapping_start(anchor, tag, yaml_mapping_style_t::YAML_FLOW_MAPPING_STYLE)
        }
        _ => mapping_start(anchor, tag, yaml_mapping_style_t::YAML_BLOCK_MAPPING_STYLE),
    }
}
