//! Events, one a line.

use anyhow::Result;
use std::alloc::Global;
use std::fmt::Write;
use unsafe_libyaml::{
    unnamed_yaml_event_t_data, yaml_event_t, yaml_list_source_t, yaml_parser_composed_events,
    yaml_parser_initialize, yaml_token_source_t, yaml_token_t,
};

/// Returns by how many levels the events after this one are deeper.
fn depth_change(event: &yaml_event_t) -> i8 {
    match &event.content {
        unnamed_yaml_event_t_data::SequenceStart(_) | unnamed_yaml_event_t_data::MappingStart(_) =>
            1,
        unnamed_yaml_event_t_data::SequenceEnd | unnamed_yaml_event_t_data::MappingEnd => -1,
        _ => 0,
    }
}

/// Returns the words of an event's line, or `None` for an event that has no line.
fn told(event: &yaml_event_t) -> Option<&str> {
    match &event.content {
        unnamed_yaml_event_t_data::Scalar(scalar) => Some(scalar.value.as_str()),
        unnamed_yaml_event_t_data::Alias(alias) => Some(alias.anchor.as_str()),
        unnamed_yaml_event_t_data::SequenceStart(_) => Some("sequence"),
        unnamed_yaml_event_t_data::MappingStart(_) => Some("mapping"),
        _ => None,
    }
}

/// Writes the line of an event at this depth.
fn write_line(outline: &mut String, event: &yaml_event_t, depth: u32) -> Result<()> {
    if let Some(words) = told(event) {
        for _ in 0..depth {
            outline.push_str("  ")?;
        }
        writeln!(outline, "{words}")?;
    }
    Ok(())
}

/// Returns the outline of these tokens' events.
///
/// # Errors
///
/// The error of the tokens, or that memory ran out.
pub fn outline_of(alloc: Global, tokens: Vec<yaml_token_t>) -> Result<String> {
    let mut parser = yaml_parser_initialize(alloc, yaml_list_source_t::from(tokens));
    let mut outline = String::new(alloc);
    let mut depth = 0u32;
    for event in parser.by_ref() {
        let event = event?;
        write_line(&mut outline, &event, depth)?;
        depth = depth.saturating_add_signed(i32::from(depth_change(&event)));
    }
    Ok(outline)
}

/// Returns the outline of the events of a source, which has to load.
///
/// # Errors
///
/// The error of the source, of the grammar or of the loader, or that memory ran out.
pub fn loadable_outline_of<S: yaml_token_source_t + Drop>(
    alloc: Global,
    source: S,
) -> Result<String> {
    let mut parser = yaml_parser_initialize(alloc, source);
    let mut outline = String::new(alloc);
    let mut depth = 0u32;
    for event in yaml_parser_composed_events(&mut parser) {
        let event = event?;
        write_line(&mut outline, &event, depth)?;
        depth = depth.saturating_add_signed(i32::from(depth_change(&event)));
    }
    Ok(outline)
}
