//! What was written of a document's nodes, beside the document.
ghost use Rattle.std.specs.Prelude.{◌≡◌, IfOk, OnOk};
ghost use Rattle.libyaml_loader.specs.composed.Written.{has_given_tag, nothing_written, written_after};
ghost use Rattle.libyaml_loader.specs.composed.Written.{written_node};

use crate::places::yaml_place_t;
use libyaml_types::{unnamed_yaml_event_t_data, yaml_event_t};
use std::alloc::{AllocError, Global};
use std::marker::Model;

/// What was written of a node that its document doesn't keep.
#[derive(Drop)]
pub struct yaml_written_node_t {
    /// The name of its anchor, if it has one.
    pub anchor: Option<String>,
    /// Whether a tag was given.
    pub is_tag_given: bool,
}

impl Model for yaml_written_node_t {
    ghost use Rattle.std.specs.Prelude.{option_map, string_bytes};
    ghost use Rattle.libyaml_loader.specs.composed.Written.{WrittenNode};

    ghost Value = { WrittenNode };

    ghost view = { λ n. record {
      anchor = option_map string_bytes n.anchor;
      is_tag_given = n.is_tag_given;
    } };
}

/// What was written of the nodes of a document, so that it can be written again in the same way.
///
/// It is made of placed events (`yaml_parser_placed_events`), while the document is read or after that.
#[derive(Drop)]
pub struct yaml_written_t {
    /// The nodes in the order of their ids: the node of id 1 comes first.
    pub nodes: Vec<yaml_written_node_t>,
    /// Where aliases stand, in the order of the text.
    pub aliases: Vec<yaml_place_t>,
}

impl Model for yaml_written_t {
    ghost use Rattle.libyaml_loader.specs.composed.Written.{Written};

    ghost Value = { Written };

    ghost view = { λ w. record {
      nodes = w.nodes.items;
      aliases = w.aliases.items;
    } };
}

impl yaml_written_t {
    /// Returns that nothing was written. Takes no memory.
    pub fn new(alloc: Global) -> Self
        ensures { result ≡ nothing_written }
    {
        yaml_written_t {
            nodes: Vec::new(alloc),
            aliases: Vec::new(alloc),
        }
    }

    /// Takes an event with its place. At the start of a document it forgets the one before.
    ///
    /// # Errors
    ///
    /// An allocation failed. The value is then unspecified.
    pub fn take(
        &mut self,
        event: &yaml_event_t,
        place: Option<yaml_place_t>,
    ) -> Result<(), AllocError>
        ensures taken { OnOk result (self.new ≡ written_after event.now place self.old) }
    {
        if let unnamed_yaml_event_t_data::DocumentStart(_) = &event.content {
            self.nodes.clear();
            self.aliases.clear();
        }
        let Some(place) = place else {
            return Ok(());
        };
        match &event.content {
            unnamed_yaml_event_t_data::Alias(_) => self.aliases.push(place)?,
            unnamed_yaml_event_t_data::Scalar(_)
            | unnamed_yaml_event_t_data::SequenceStart(_)
            | unnamed_yaml_event_t_data::MappingStart(_) => {
                let node = written_node(*self.nodes.allocator(), event)?;
                self.nodes.push(node)?;
            }
            _ => {}
        }
        Ok(())
    }
}

/// Returns what was written of the node of this event.
///
/// # Errors
///
/// An allocation failed.
fn written_node(alloc: Global, event: &yaml_event_t) -> Result<yaml_written_node_t, AllocError>
    ensures { IfOk result (λ n. n ≡ written_node event.now) }
{
    let anchor = match event.anchor() {
        Some(anchor) => Some(String::from_str(alloc, anchor)?),
        None => None,
    };
    let is_tag_given = has_given_tag(event);
    Ok(yaml_written_node_t {
        anchor,
        is_tag_given,
    })
}

/// Returns whether a tag was given.
fn has_given_tag(event: &yaml_event_t) -> bool
    ensures { result ≡ has_given_tag event.now.content }
{
    match &event.content {
        unnamed_yaml_event_t_data::Scalar(scalar) => scalar.tag.is_some(),
        unnamed_yaml_event_t_data::SequenceStart(start) => start.tag.is_some(),
        unnamed_yaml_event_t_data::MappingStart(start) => start.tag.is_some(),
        _ => false,
    }
}
