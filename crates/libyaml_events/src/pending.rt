//! What the parser has of a document or node within a call.
ghost use Rattle.std.specs.Prelude.{◌≡◌};
ghost use Rattle.libyaml_events.specs.machine.Outcomes.{wanted};
ghost use Rattle.libyaml_events.specs.machine.Config.{start};
ghost use Rattle.libyaml_events.specs.machine.Want.{AtState};
ghost use Rattle.libyaml_events.specs.automaton.View.{Ready};

use crate::properties::PropertiesHeld;
use libyaml_automaton::Reading;
use libyaml_types::{yaml_tag_directive_t, yaml_version_directive_t};
use std::alloc::Global;
use std::marker::Model;

/// The directives of a document, read so far.
#[derive(Drop)]
pub(crate) struct DirectivesHeld {
    pub version: Option<yaml_version_directive_t>,
    /// In the order of their tokens.
    pub tag_directives: Vec<yaml_tag_directive_t>,
}

impl Model for DirectivesHeld {
    ghost use Rattle.libyaml_events.specs.machine.Read.{DirectiveTexts};

    ghost Value = { DirectiveTexts };

    ghost view = { λ d. record {
      version = d.version;
      tag_directives = d.tag_directives.items;
    } };
}

/// What the parser has of a document or node when a further token is wanted.
#[derive(Drop)]
pub(crate) struct Pending {
    /// Which function takes the next token, and what was read except its texts.
    pub reading: Reading,
    /// Of an earlier node if `reading` says that this one has no anchor or no tag.
    pub properties: PropertiesHeld,
    pub directives: DirectivesHeld,
}

impl Pending {
    /// Returns what a parser has before it read anything.
    #[inline(always)]
    pub(crate) fn new(alloc: Global) -> Self
        ensures wanted { wanted result ≡ AtState }
        ensures at { Ready result start }
    {
        Pending {
            reading: Reading::new(),
            properties: PropertiesHeld {
                anchor: None,
                tag: None,
            },
            directives: DirectivesHeld {
                version: None,
                tag_directives: Vec::new(alloc),
            },
        }
    }
}
