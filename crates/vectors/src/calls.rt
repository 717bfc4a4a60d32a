//! Calls that no list of tokens shows: each makes a text.

mod documents;
mod events;
mod parsers;

use crate::files::{Host, Table, count};
use anyhow::{Result, bail};
use std::alloc::Global;
use std::fmt::{Debug, Display};
use std::fs;
use unsafe_libyaml::{
    YAML_EMITTER_ERROR, YAML_MAPPING_END_EVENT, YAML_SCALAR_TOKEN, yaml_parser_state_t,
    yaml_refusal_t,
};

/// Compares the calls of the file `calls`: a line `# TABLE` begins a table, the others are `NAME|TEXT`.
pub fn compare(rt: &impl Host) -> Result<u64> {
    let lines = fs::read_to_string(rt, "calls")?;
    compare_vectors(rt, lines.as_str())
}

fn compare_vectors(rt: &impl Host, lines: &str) -> Result<u64> {
    let mut table = Table { name: "" };
    let (mut calls, mut differ) = (0u64, 0u64);
    for line in lines.lines() {
        if let Some((name, fields)) = table.vector(line) {
            differ = differ.saturating_add(compare_call(rt, table.name, name, fields)?);
            calls = calls.saturating_add(1);
        }
    }
    println!(rt; "calls: {calls}, {differ} differ")?;
    Ok(differ)
}

fn compare_call(rt: &impl Host, table: &str, name: &str, wanted: &str) -> Result<u64> {
    let text = given(rt, table, name)?;
    Ok(count(rt, table, name, text.as_str() == wanted)?)
}

/// Returns the text of what a call gives.
fn given(rt: &impl Host, table: &str, name: &str) -> Result<String> {
    match table {
        "enums" => of_enums(rt.alloc(), name),
        "constructors" => events::given(rt.alloc(), name),
        "documents" => documents::given(rt.alloc(), name),
        "parsers" => parsers::given(rt, name),
        _ => bail!("a table of no calls"),
    }
}

/// Returns the text of a value.
fn text_of<T: Display>(alloc: Global, value: &T) -> Result<String> {
    Ok(format!(in alloc; "{value}")?)
}

/// Returns the text that shows a value.
fn shown<T: Debug>(alloc: Global, value: &T) -> Result<String> {
    Ok(format!(in alloc; "{value:?}")?)
}

/// Returns these lines in one, with `;` in place of each LF.
fn joined(alloc: Global, lines: &[u8]) -> Result<String> {
    Ok(str::from_utf8(lines)?.replace(alloc, '\n', ";")?)
}

/// The numbers of four variants.
fn numbers() -> [u32; 4] {
    [
        YAML_SCALAR_TOKEN.number(),
        YAML_MAPPING_END_EVENT.number(),
        yaml_parser_state_t::YAML_PARSE_END_STATE.number(),
        YAML_EMITTER_ERROR.number(),
    ]
}

fn of_enums(alloc: Global, name: &str) -> Result<String> {
    match name {
        "numbers of enums" => shown(alloc, &numbers()),
        "a text that is none" => text_of(alloc, &yaml_refusal_t::NotUtf8),
        "a failed allocation" => text_of(alloc, &yaml_refusal_t::Memory),
        "too many nodes" => text_of(alloc, &yaml_refusal_t::TooManyNodes),
        _ => bail!("no such enum"),
    }
}
