//! The tokens of `{ name: box, size: [ 1, 2 ] }`.

use anyhow::Result;
use std::alloc::Global;
use unsafe_libyaml::{
    YAML_PLAIN_SCALAR_STYLE, YAML_UTF8_ENCODING, unnamed_yaml_token_t_data, yaml_mark_t,
    yaml_token_t,
};

/// Returns the place of the next token. Each token is one column wide here.
fn place(tokens: &Vec<yaml_token_t>) -> yaml_mark_t {
    let column = tokens.len() as u64;
    yaml_mark_t {
        index: column,
        line: 0,
        column,
    }
}

/// Appends a token without fields.
fn push(tokens: &mut Vec<yaml_token_t>, content: unnamed_yaml_token_t_data) -> Result<()> {
    let place = place(tokens);
    tokens.push(yaml_token_t::new(content, place, place))?;
    Ok(())
}

/// Appends a plain scalar.
fn push_scalar(alloc: Global, tokens: &mut Vec<yaml_token_t>, text: &str) -> Result<()> {
    let place = place(tokens);
    let style = YAML_PLAIN_SCALAR_STYLE;
    tokens.push(yaml_token_t::scalar(alloc, text.as_bytes(), style, place, place)?)?;
    Ok(())
}

/// Appends the tokens of a key and the VALUE that begins its value.
fn push_key(alloc: Global, tokens: &mut Vec<yaml_token_t>, key: &str) -> Result<()> {
    push(tokens, unnamed_yaml_token_t_data::Key)?;
    push_scalar(alloc, tokens, key)?;
    push(tokens, unnamed_yaml_token_t_data::Value)
}

/// Returns the tokens like a scanner: a KEY before each key, a VALUE before each value.
pub fn tokens_of_a_box(alloc: Global) -> Result<Vec<yaml_token_t>> {
    use unnamed_yaml_token_t_data::{
        FlowEntry, FlowMappingEnd, FlowMappingStart, FlowSequenceEnd, FlowSequenceStart, StreamEnd,
    };
    let mut tokens = Vec::new(alloc);
    let start = place(&tokens);
    tokens.push(yaml_token_t::stream_start(YAML_UTF8_ENCODING, start, start))?;
    push(&mut tokens, FlowMappingStart)?;
    push_key(alloc, &mut tokens, "name")?;
    push_scalar(alloc, &mut tokens, "box")?;
    push(&mut tokens, FlowEntry)?;
    push_key(alloc, &mut tokens, "size")?;
    push(&mut tokens, FlowSequenceStart)?;
    push_scalar(alloc, &mut tokens, "1")?;
    push(&mut tokens, FlowEntry)?;
    push_scalar(alloc, &mut tokens, "2")?;
    push(&mut tokens, FlowSequenceEnd)?;
    push(&mut tokens, FlowMappingEnd)?;
    push(&mut tokens, StreamEnd)?;
    Ok(tokens)
}
