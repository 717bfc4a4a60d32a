//! `bench_lists [WORK ROUNDS]`: the tokens of the token lines on standard input, parsed or loaded so many
//! times, with nothing written of them. `bench/run.sh` counts what a token takes.
//!
//! A line for the work says how many events or nodes one round has, their checksum, and how many the rounds
//! had in all. Without words each work has a line, of one round: the ways to parse agree.
#![tactic(auto)]

mod copying;
mod reusing;
mod rounds;
mod tally;

use anyhow::{Context, Result, bail};
use libyaml_events::{unnamed_yaml_token_t_data, yaml_token_source_t, yaml_token_t};
use line_reading::yaml_line_source_t;
use rounds::{Work, run_rounds};
use std::env;
use std::io::BufReader;
use std::rt::Env;

/// How many bytes are read at once.
const BUFFER_SIZE: usize = 1 << 16;

/// Reads the tokens of standard input, up to STREAM-END.
fn read_tokens(rt: &HostRuntime) -> Result<Vec<yaml_token_t>> {
    let alloc = rt.alloc();
    let reader = BufReader::with_capacity(alloc, BUFFER_SIZE, rt.stdin())?;
    let mut source = yaml_line_source_t::new(alloc, reader, u64::MAX);
    let mut tokens = Vec::new(alloc);
    for _ in 0..u64::MAX {
        let token = source.next_token()?;
        let is_last = matches!(token.content, unnamed_yaml_token_t_data::StreamEnd);
        tokens.push(token)?;
        if is_last {
            break;
        }
    }
    Ok(tokens)
}

fn show(
    rt: &(impl Print + AllocGlobal),
    work: Work,
    n: u32,
    tokens: &[yaml_token_t],
) -> Result<()> {
    let word = work.word();
    let ran = run_rounds(rt.alloc(), work, n, tokens).context("a round failed")?;
    println!(rt; "{word} {} {} {}", ran.items, ran.checksum, ran.counted)?;
    Ok(())
}

fn show_all(rt: &(impl Print + AllocGlobal), tokens: &[yaml_token_t]) -> Result<()> {
    for work in Work::ALL {
        show(rt, work, 1, tokens)?;
    }
    Ok(())
}

fn run_words(
    rt: &(impl Print + AllocGlobal),
    words: &[String],
    tokens: &[yaml_token_t],
) -> Result<()> {
    match words {
        [] => show_all(rt, tokens),
        [work, n] => {
            let work = Work::of(work.as_str()).context("no such work")?;
            let n = n.as_str().parse::<u32>().context("no number")?;
            show(rt, work, n, tokens)
        }
        _ => bail!("usage: bench_lists [WORK ROUNDS]"),
    }
}

/// Returns the arguments after the program's name.
fn read_words(rt: &(impl Env + AllocGlobal)) -> Result<Vec<String>> {
    Ok(env::args(rt)?.skip(1).collect(rt.alloc())?)
}

fn main(rt: HostRuntime) -> Result<()> {
    let words = read_words(&rt)?;
    let tokens = read_tokens(&rt)?;
    run_words(&rt, words.as_slice(), tokens.as_slice())
}
