//! Events by calls, of texts in which the zero byte counts, and of bytes that are no text.

use crate::calls::{joined, shown};
use anyhow::Result;
use std::alloc::Global;
use token_lines::write_event;
use unsafe_libyaml::{
    YAML_DOUBLE_QUOTED_SCALAR_STYLE, YAML_FLOW_MAPPING_STYLE, YAML_FLOW_SEQUENCE_STYLE,
    YAML_FOLDED_SCALAR_STYLE, YAML_PLAIN_SCALAR_STYLE, ZERO_MARK, unnamed_yaml_event_t_data,
    yaml_alias_event_initialize, yaml_document_start_event_initialize, yaml_event_delete,
    yaml_event_t, yaml_mapping_start_event_initialize, yaml_refusal_t,
    yaml_scalar_event_initialize, yaml_sequence_start_event_initialize, yaml_version_directive_t,
};

/// A text with a zero byte in it.
const ZERO: &[u8] = b"a\0b";

type Made = Result<yaml_event_t, yaml_refusal_t>;

fn scalar(alloc: Global, value: &[u8]) -> Made {
    let style = YAML_PLAIN_SCALAR_STYLE;
    yaml_scalar_event_initialize(alloc, None, None, value, true, false, style)
}

fn document_start(alloc: Global) -> Made {
    let version = Some(yaml_version_directive_t { major: 1, minor: 2 });
    let pairs: [(&[u8], &[u8]); 2] = [(ZERO, ZERO), (b"", b"p:")];
    yaml_document_start_event_initialize(alloc, version, &pairs, true)
}

fn bad_document_start(alloc: Global) -> Made {
    let pairs: [(&[u8], &[u8]); 1] = [(b"!e!", b"\xff")];
    yaml_document_start_event_initialize(alloc, None, &pairs, false)
}

/// Makes the call of this name.
fn made(alloc: Global, name: &str) -> Made {
    let zero = Some(ZERO);
    match name {
        "a scalar" => {
            let style = YAML_DOUBLE_QUOTED_SCALAR_STYLE;
            yaml_scalar_event_initialize(alloc, zero, zero, ZERO, false, true, style)
        }
        "a scalar without a tag" => {
            let style = YAML_FOLDED_SCALAR_STYLE;
            yaml_scalar_event_initialize(alloc, None, None, ZERO, false, false, style)
        }
        "an alias" => yaml_alias_event_initialize(alloc, ZERO),
        "the start of a sequence" => {
            let style = YAML_FLOW_SEQUENCE_STYLE;
            yaml_sequence_start_event_initialize(alloc, zero, zero, true, style)
        }
        "the start of a mapping" => {
            let style = YAML_FLOW_MAPPING_STYLE;
            yaml_mapping_start_event_initialize(alloc, zero, zero, false, style)
        }
        "the start of a document" => document_start(alloc),
        "a prefix that is no text" => bad_document_start(alloc),
        "the last character" => scalar(alloc, b"\xf4\x8f\xbf\xbf"),
        "past the last character" => scalar(alloc, b"\xf4\x90\x80\x80"),
        "a surrogate" => scalar(alloc, b"\xed\xa0\x80"),
        _ => Err(yaml_refusal_t::TooManyNodes),
    }
}

pub fn line_of(alloc: Global, event: &yaml_event_t) -> Result<String> {
    let mut line = Vec::new(alloc);
    write_event(alloc, event, &mut line)?;
    joined(alloc, line.as_slice())
}

/// Returns the line of an event, or the name of the error in its place.
fn text_of_made(alloc: Global, made: &Made) -> Result<String> {
    match made {
        Ok(event) => line_of(alloc, event),
        Err(refusal) => shown(alloc, refusal),
    }
}

fn is_empty(event: &yaml_event_t) -> bool {
    matches!(event.content, unnamed_yaml_event_t_data::NoEvent) && event.end_mark == ZERO_MARK
}

/// Whether an event is empty after a first and after a second deletion.
fn empties_twice(event: &mut yaml_event_t) -> [bool; 2] {
    event.end_mark.index = 1;
    yaml_event_delete(event);
    let is_emptied = is_empty(event);
    yaml_event_delete(event);
    [is_emptied, is_empty(event)]
}

fn emptied_twice(alloc: Global) -> Result<String> {
    let mut event = scalar(alloc, b"x")?;
    shown(alloc, &empties_twice(&mut event))
}

/// Returns the text of what the call of this name makes.
pub fn given(alloc: Global, name: &str) -> Result<String> {
    if name == "an event is emptied twice" {
        return emptied_twice(alloc);
    }
    text_of_made(alloc, &made(alloc, name))
}
