//! The lists of `data`, large lists, and the calls that no list shows, with what they must give.
//!
//! The program compares the events and the documents of each list, names those that differ and the worked
//! examples that don't, and counts. It fails if one differs. All other ways to read a list are those of
//! `cargo test`.
#![tactic(auto)]

mod calls;
mod files;
mod large;
mod lists;
mod pieces;
mod read;
mod sources;

use anyhow::{Result, bail};
use files::Host;

/// The folders of lists.
const TABLES: [&str; 6] = [
    "worked",
    "productions",
    "loads",
    "libyaml_differs",
    "suite",
    "real",
];

/// Compares everything, and returns how much differs.
fn compare(rt: &impl Host) -> Result<u64> {
    let mut differ = 0u64;
    for table in TABLES {
        differ = differ.saturating_add(lists::compare(rt, table)?);
    }
    Ok(
        differ
            .saturating_add(calls::compare(rt)?)
            .saturating_add(large::compare(rt)?),
    )
}

fn main(rt: HostRuntime) -> Result<()> {
    let differ = compare(&rt)?;
    if differ > 0 {
        bail!("{differ} differ");
    }
    Ok(())
}
