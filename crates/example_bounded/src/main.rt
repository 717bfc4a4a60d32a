//! `example_bounded FILE..`: the settings of each file of token lines, read as a program should read text that it
//! doesn't trust: within bounds on depth, on nodes and on nodes with aliases written out. Then the size of each
//! document of the last file, loaded without these bounds. The exit status is 1 if one of them has none.
#![tactic(auto)]

mod sizes;

use anyhow::Result;
use sizes::print_sizes;
use std::alloc::Global;
use std::fmt::Write;
use std::process::ExitCode;
use std::rt::Files;
use std::{env, fs};
use token_limits::yaml_limited_source_t;
use token_lines::yaml_line_source_t;
use unsafe_libyaml::{
    unnamed_yaml_event_t_data, yaml_event_t, yaml_parser_initialize, yaml_token_source_t,
};
use yaml_bounds::{yaml_node_bounds_t, yaml_parser_bounded_events};

/// How many collections may be open at once.
const MAX_DEPTH: usize = 100;

/// How many nodes a document may have.
const BOUNDS: yaml_node_bounds_t = yaml_node_bounds_t {
    max_nodes: Some(10_000),
    max_expanded: Some(100_000),
};

fn main(rt: HostRuntime) -> ExitCode {
    match print_files(&rt) {
        Ok(true) => ExitCode::SUCCESS,
        Ok(false) => ExitCode::FAILURE,
        Err(error) => {
            let _ = eprintln!(rt; "example_bounded: {error}");
            ExitCode::FAILURE
        }
    }
}

/// Prints the settings of each file, and the sizes of the last one's documents. Returns whether each of these has
/// one.
fn print_files(rt: &HostRuntime) -> Result<bool> {
    let files: Vec<String> = env::args(rt)?.skip(1).collect(rt.alloc())?;
    for file in &files {
        match read_settings(rt, file.as_str()) {
            Ok(settings) => print!(rt; "{file}:\n{settings}")?,
            Err(error) => println!(rt; "{file}: {error}")?,
        }
    }
    match files.last() {
        Some(file) => print_sizes(rt, file.as_str()),
        None => Ok(true),
    }
}

/// Returns the settings of a file of token lines.
fn read_settings(rt: &(impl Files + AllocGlobal), file: &str) -> Result<String> {
    let alloc: Global = rt.alloc();
    let text = fs::read_to_string(rt, file)?;
    let lines = yaml_line_source_t::new(alloc, text.as_bytes(), u64::MAX);
    settings_of(alloc, yaml_limited_source_t::new(lines, MAX_DEPTH))
}

/// Returns a line for each pair of the root of each document: the key, and the scalars of the value.
fn settings_of<S: yaml_token_source_t + Drop>(alloc: Global, source: S) -> Result<String> {
    let mut settings = String::new(alloc);
    let mut parser = yaml_parser_initialize(alloc, source);
    let mut depth = 0u64;
    let mut is_key = true;
    for event in yaml_parser_bounded_events(&mut parser, BOUNDS) {
        let event = event?;
        let before = depth;
        depth = depth_after(&event, before);
        if before > 0 {
            write_word(&event, &mut settings)?;
            if depth == 1 {
                settings.push_str(if is_key { " =" } else { "\n" })?;
                is_key = !is_key;
            }
        }
    }
    Ok(settings)
}

/// Writes the text of a scalar, or the anchor that an alias names.
fn write_word(event: &yaml_event_t, settings: &mut String) -> Result<()> {
    match &event.content {
        unnamed_yaml_event_t_data::Scalar(scalar) => write!(settings, " {}", scalar.value)?,
        unnamed_yaml_event_t_data::Alias(alias) => write!(settings, " *{}", alias.anchor)?,
        _ => {}
    }
    Ok(())
}

/// Returns how many collections are open after an event.
fn depth_after(event: &yaml_event_t, depth: u64) -> u64 {
    match &event.content {
        unnamed_yaml_event_t_data::SequenceStart(_) | unnamed_yaml_event_t_data::MappingStart(_) =>
            depth.saturating_add(1),
        unnamed_yaml_event_t_data::SequenceEnd | unnamed_yaml_event_t_data::MappingEnd => {
            depth.saturating_sub(1)
        }
        _ => depth,
    }
}
