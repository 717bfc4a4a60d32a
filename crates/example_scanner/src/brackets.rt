//! A scanner of brackets, commas and letters, which pushes its tokens.

use anyhow::{Result, bail};
use std::alloc::Global;
use unsafe_libyaml::{
    TokenTypes, YAML_PLAIN_SCALAR_STYLE, YAML_UTF8_ENCODING, unnamed_yaml_token_t_data,
    yaml_event_t, yaml_mark_t, yaml_push_parser_t, yaml_token_t, yaml_token_type_t,
};

/// Returns the mark of a column of the one line.
fn mark(column: u64) -> yaml_mark_t {
    yaml_mark_t {
        index: column,
        line: 0,
        column,
    }
}

/// Returns the token of a character: each one is a token.
fn token(alloc: Global, character: u8, mark: yaml_mark_t) -> Result<yaml_token_t> {
    use unnamed_yaml_token_t_data::{FlowEntry, FlowSequenceEnd, FlowSequenceStart};
    Ok(match character {
        b'[' => yaml_token_t::new(FlowSequenceStart, mark, mark),
        b']' => yaml_token_t::new(FlowSequenceEnd, mark, mark),
        b',' => yaml_token_t::new(FlowEntry, mark, mark),
        letter if letter.is_ascii_alphabetic() => {
            yaml_token_t::scalar(alloc, &[letter], YAML_PLAIN_SCALAR_STYLE, mark, mark)?
        }
        _ => bail!("found no token"),
    })
}

/// Pushes a token, and prints the events that it determines.
fn push(rt: &HostRuntime, parser: &mut yaml_push_parser_t, token: yaml_token_t) -> Result<()> {
    let mut events: Vec<yaml_event_t> = Vec::new(rt.alloc());
    let pushed = parser.push(token, &mut events);
    for event in &events {
        println!(rt; "{} at {}", event.type_(), event.start_mark)?;
    }
    Ok(pushed?)
}

/// Prints what may come next, in place of the text's end.
fn print_expected(rt: &HostRuntime, expected: TokenTypes) -> Result<()> {
    use yaml_token_type_t::{
        YAML_FLOW_ENTRY_TOKEN, YAML_FLOW_SEQUENCE_END_TOKEN, YAML_FLOW_SEQUENCE_START_TOKEN,
        YAML_SCALAR_TOKEN,
    };
    for (kind, word) in [
        (YAML_FLOW_SEQUENCE_START_TOKEN, "["),
        (YAML_FLOW_SEQUENCE_END_TOKEN, "]"),
        (YAML_FLOW_ENTRY_TOKEN, ","),
        (YAML_SCALAR_TOKEN, "a letter"),
    ] {
        if expected.contains(kind) {
            println!(rt; "expected {word}")?;
        }
    }
    Ok(())
}

/// Pushes the tokens of a text, and prints the type and the place of each event. If it can't end there, prints
/// what may come next.
///
/// # Errors
///
/// A character that is no token, the error of the tokens, or that memory or the output failed.
pub fn push_text(rt: &HostRuntime, text: &str) -> Result<()> {
    let alloc = rt.alloc();
    let mut parser = yaml_push_parser_t::new(alloc);
    let start = mark(0);
    push(
        rt,
        &mut parser,
        yaml_token_t::stream_start(YAML_UTF8_ENCODING, start, start),
    )?;
    let mut column = 0u64;
    for character in text.bytes() {
        push(rt, &mut parser, token(alloc, character, mark(column))?)?;
        column = column.saturating_add(1);
    }
    let expected = parser.expected();
    if !expected.contains(yaml_token_type_t::YAML_STREAM_END_TOKEN) {
        return print_expected(rt, expected);
    }
    let end = mark(column);
    push(
        rt,
        &mut parser,
        yaml_token_t::new(unnamed_yaml_token_t_data::StreamEnd, end, end),
    )
}
