//! `example_paths WORD..`: the scalar at the end of a path, in the first document of the token lines on
//! standard input.
//!
//! The exit status is 0 where the scalar was printed, and 2 where there are no words, or words that are
//! not text. It is 1 where no scalar was printed for another reason: the tokens have an error, the path
//! leads to nothing or to a collection, or memory or the output failed. Where the status is not 0, a line
//! on standard error says why.
#![tactic(auto)]

use anyhow::{Context, Result};
use std::env;
use std::io::BufReader;
use std::process::ExitCode;
use std::rt::Env;
use token_lines::yaml_line_source_t;
use unsafe_libyaml::{yaml_document_t, yaml_parser_initialize, yaml_parser_load};
use yaml_path::text_at;

/// How many bytes are read at once.
const BUFFER_SIZE: usize = 1 << 16;

/// The exit status where no scalar was printed.
const NO_VALUE: u8 = 1;

/// The exit status of words that are no path.
const WRONG_WORDS: u8 = 2;

fn main(rt: HostRuntime) -> ExitCode {
    let Ok(words) = read_words(&rt) else {
        return refuse_words(&rt);
    };
    if words.is_empty() {
        return refuse_words(&rt);
    }
    match print_value(&rt, words.as_slice()) {
        Ok(()) => ExitCode::SUCCESS,
        Err(error) => {
            let _ = eprintln!(rt; "example_paths: {error}");
            ExitCode::from(NO_VALUE)
        }
    }
}

/// Returns the arguments after the program's name.
fn read_words(rt: &(impl Env + AllocGlobal)) -> Result<Vec<String>> {
    Ok(env::args(rt)?.skip(1).collect(rt.alloc())?)
}

/// Writes the usage line.
fn refuse_words(rt: &impl Eprint) -> ExitCode {
    let _ = eprintln!(rt; "usage: example_paths WORD..");
    ExitCode::from(WRONG_WORDS)
}

/// Prints the scalar at the end of the path in the first document on standard input.
fn print_value(rt: &HostRuntime, words: &[String]) -> Result<()> {
    let document = first_document(rt)?;
    let path: Vec<&str> = words.iter().map(|word| word.as_str()).collect(rt.alloc())?;
    let text = text_at(&document, path.as_slice()).context("no scalar at this path")?;
    println!(rt; "{text}")?;
    Ok(())
}

/// Loads the first document of the token lines on standard input.
///
/// # Errors
///
/// The tokens have an error, or memory was not found.
fn first_document(rt: &HostRuntime) -> Result<yaml_document_t> {
    let alloc = rt.alloc();
    let reader = BufReader::with_capacity(alloc, BUFFER_SIZE, rt.stdin())?;
    let source = yaml_line_source_t::new(alloc, reader, u64::MAX);
    let mut parser = yaml_parser_initialize(alloc, source);
    match yaml_parser_load(&mut parser) {
        Ok(document) => Ok(document),
        Err(_) => Err((*parser.prefix()).into()),
    }
}
