//! Lists, read from files.

use crate::files::{Host, read_part, read_text};
use crate::pieces::{EVERY_CALL, PieceReader, PieceWriter};
use crate::read::{Given, is_given};
use crate::sources::Lines;
use anyhow::{Context, Result};
use std::alloc::Global;
use token_lines::{Outcome, run_events, run_nodes};
use unsafe_libyaml::yaml_scanner_source_t;

/// So many bytes are read and written at once.
const PIECES: [usize; 5] = [1, 2, 3, 7, EVERY_CALL];

/// The table whose lists are named where nothing differs.
const NAMED: &str = "worked";

/// A file of a list.
#[derive(Copy, Clone)]
struct Place<'a> {
    table: &'a str,
    name: &'a str,
    ending: &'a str,
}

/// Compares the lists of a folder, whose `index` has a line for each: its name, the endings of its files
/// besides `events` and `nodes`, and what it shows. Returns how many files differ.
pub fn compare(rt: &impl Host, table: &str) -> Result<u64> {
    let index = read_text(rt, table, "index")?;
    compare_lists(rt, table, index.as_str())
}

fn compare_lists(rt: &impl Host, table: &str, index: &str) -> Result<u64> {
    let (mut differ, mut lists) = (0u64, 0u64);
    for line in index.lines() {
        differ = differ.saturating_add(compare_list(rt, table, line)?);
        lists = lists.saturating_add(1);
    }
    println!(rt; "{table}: {lists} lists, {differ} differ")?;
    Ok(differ)
}

/// Compares the files of a list, and names a worked one of which none differs.
fn compare_list(rt: &impl Host, table: &str, line: &str) -> Result<u64> {
    let (names, _) = line.split_once(": ").unwrap_or((line, ""));
    let (name, others) = names.split_once(' ').unwrap_or((names, ""));
    let differ = compare_files(rt, table, name, others)?;
    if differ == 0 && table == NAMED {
        println!(rt; "{table}/{name}: as expected")?;
    }
    Ok(differ)
}

/// Compares the files of a list with the endings `events`, `nodes`, and these others.
fn compare_files(rt: &impl Host, table: &str, name: &str, others: &str) -> Result<u64> {
    let mut differ = 0u64;
    for ending in ["events", "nodes"]
        .into_iter()
        .chain(others.split_whitespace())
    {
        let place = Place {
            table,
            name,
            ending,
        };
        differ = differ.saturating_add(compare_file(rt, place)?);
    }
    Ok(differ)
}

fn compare_file(rt: &impl Host, place: Place<'_>) -> Result<u64> {
    match given_of(place.ending)? {
        Some(given) => count(rt, place, is_file_right(rt, place, given)?),
        None => Ok(0),
    }
}

/// Counts a file that differs, and names it.
fn count(rt: &impl Print, place: Place<'_>, is_right: bool) -> Result<u64> {
    let Place {
        table,
        name,
        ending,
    } = place;
    if !is_right {
        println!(rt; "{table}/{name}.{ending} differs")?;
    }
    Ok(u64::from(!is_right))
}

fn is_file_right(rt: &impl Host, place: Place<'_>, given: Given) -> Result<bool> {
    let tokens = read_part(rt, place.table, place.name, "tokens")?;
    are_tokens_right(rt, place, given, tokens.as_str())
}

fn are_tokens_right(rt: &impl Host, place: Place<'_>, given: Given, tokens: &str) -> Result<bool> {
    let wanted = read_part(rt, place.table, place.name, place.ending)?;
    is_right(rt.alloc(), tokens, given, wanted.as_bytes())
}

/// What the file of this ending has; none if it has no lines of events or documents.
fn given_of(ending: &str) -> Result<Option<Given>> {
    Ok(match ending {
        "events" => Some(Given::Events),
        "nodes" => Some(Given::Nodes(i32::MAX)),
        "asked" => None,
        _ => {
            let most = ending.strip_prefix("nodes@").context("no file of a list")?;
            Some(Given::Nodes(most.parse::<i32>()?.max(1)))
        }
    })
}

/// Whether the lines are given by a run over the token lines, and call by call.
fn is_right(alloc: Global, tokens: &str, given: Given, wanted: &[u8]) -> Result<bool> {
    let source = yaml_scanner_source_t::new(Lines::new(alloc, tokens), u64::MAX);
    Ok(is_given(alloc, source, given, wanted)? && is_run(alloc, tokens, given, wanted))
}

fn is_run(alloc: Global, tokens: &str, given: Given, wanted: &[u8]) -> bool {
    for piece in PIECES {
        if !is_run_in_pieces(alloc, tokens, given, wanted, piece) {
            return false;
        }
    }
    true
}

fn is_run_in_pieces(
    alloc: Global,
    tokens: &str,
    given: Given,
    wanted: &[u8],
    piece: usize,
) -> bool {
    let mut writer = PieceWriter::new(alloc, piece, EVERY_CALL);
    let reader = PieceReader::new(tokens.as_bytes(), piece, EVERY_CALL);
    let outcome = match given {
        Given::Events => run_events(alloc, reader, &mut writer),
        Given::Nodes(i32::MAX) => run_nodes(alloc, reader, &mut writer),
        Given::Nodes(_) => return true,
    };
    outcome == outcome_of(wanted) && writer.written() == wanted
}

/// How a run ends that writes these lines.
fn outcome_of(lines: &[u8]) -> Outcome {
    let text = str::from_utf8(lines).unwrap_or("");
    if text.starts_with("FAULT ") || text.contains("\nFAULT ") {
        Outcome::Faulted
    } else {
        Outcome::Ended
    }
}
