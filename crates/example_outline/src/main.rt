//! `example_outline WORD..`: what each word names, one after another.
//!
//! - `events`: the events of a list of tokens that this program makes, one a line, indented by their depth.
//! - `outline`: the same of the token lines on standard input, which have to load.
//! - `pairs`: the pairs of the root of a document that it makes by calls, and of each document of the token
//!   lines on standard input.
//!
//! docs/CALLING.md, "A whole program" and "Documents", shows them.
#![tactic(auto)]

mod documents;
mod events;
mod tokens;

use anyhow::{Result, bail};
use documents::print_all_pairs;
use events::{loadable_outline_of, outline_of};
use std::env;
use std::io::BufReader;
use token_lines::yaml_line_source_t;
use tokens::tokens_of_a_box;

/// Prints the outline of the events.
fn print_outline(rt: &HostRuntime) -> Result<()> {
    let alloc = rt.alloc();
    let outline = outline_of(alloc, tokens_of_a_box(alloc)?)?;
    print!(rt; "{outline}")?;
    Ok(())
}

/// Prints the outline of the events that come on standard input.
fn print_outline_of_input(rt: &HostRuntime) -> Result<()> {
    let alloc = rt.alloc();
    let reader = BufReader::new(alloc, rt.stdin())?;
    let source = yaml_line_source_t::new(alloc, reader, u64::MAX);
    let outline = loadable_outline_of(alloc, source)?;
    print!(rt; "{outline}")?;
    Ok(())
}

/// Prints what this word names.
fn print_word(rt: &HostRuntime, word: &str) -> Result<()> {
    match word {
        "events" => print_outline(rt),
        "outline" => print_outline_of_input(rt),
        "pairs" => print_all_pairs(rt),
        _ => bail!("expected `events`, `outline` or `pairs`"),
    }
}

fn main(rt: HostRuntime) -> Result<()> {
    let words: Vec<String> = env::args(&rt)?.skip(1).collect(rt.alloc())?;
    if words.is_empty() {
        bail!("usage: example_outline events|outline|pairs ..");
    }
    for word in &words {
        print_word(&rt, word.as_str())?;
    }
    Ok(())
}
