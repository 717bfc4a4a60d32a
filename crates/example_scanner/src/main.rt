//! `example_scanner TEXT..`: the events of two scanners of one's own. The one of `key=value` lines, on
//! standard input, returns its tokens; that of texts as `[a,[b]]`, which are the arguments, pushes them.
//!
//! docs/CALLING.md, "A source of your own" and "A scanner that pushes", shows them.
#![tactic(auto)]

mod brackets;
mod pairs;

use anyhow::Result;
use brackets::push_text;
use pairs::Pairs;
use std::env;
use std::io::Read;
use unsafe_libyaml::{yaml_parser_initialize, yaml_scanner_source_t, yaml_token_source_t};

/// Prints the type and the place of each event.
fn print_events<S: yaml_token_source_t + Drop>(rt: &HostRuntime, source: S) -> Result<()> {
    let mut parser = yaml_parser_initialize(rt.alloc(), source);
    for event in parser.by_ref() {
        let event = event?;
        println!(rt; "{} at {}", event.type_(), event.start_mark)?;
    }
    Ok(())
}

/// Prints the events of the `key=value` lines on standard input.
fn print_lines(rt: &HostRuntime) -> Result<()> {
    let alloc = rt.alloc();
    let mut text = String::new(alloc);
    rt.stdin().read_to_string(&mut text)?;
    let source = yaml_scanner_source_t::new(Pairs::new(alloc, &text), 1_000_000);
    print_events(rt, source)
}

fn main(rt: HostRuntime) -> Result<()> {
    print_lines(&rt)?;
    for text in env::args(&rt)?.skip(1) {
        push_text(&rt, &text)?;
    }
    Ok(())
}
