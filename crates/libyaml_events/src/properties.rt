//! The texts of a node's properties.

use libyaml_types::unnamed_yaml_token_t_data_tag;
use std::marker::Model;

/// The texts of the properties of a node, read so far.
#[derive(Drop)]
pub(crate) struct PropertiesHeld {
    pub anchor: Option<String>,
    pub tag: Option<unnamed_yaml_token_t_data_tag>,
}

impl Model for PropertiesHeld {
    ghost use Rattle.std.specs.Prelude.{option_map, string_bytes};
    ghost use Rattle.libyaml_events.specs.machine.Read.{PropertyTexts};

    ghost Value = { PropertyTexts };

    ghost view = { λ p. record {
      anchor = option_map string_bytes p.anchor;
      tag = p.tag;
    } };
}
