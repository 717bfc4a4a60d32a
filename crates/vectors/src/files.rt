//! The files of `data`, and what is told of them.

use anyhow::Result;
use std::rt::Files;
use std::{fs, io};

/// Reads files, prints, and allocates.
pub trait Host: Files + Print + AllocGlobal {}

impl<R: Files + Print + AllocGlobal> Host for R {}

/// Returns the text of the file `FOLDER/NAME` of `data`.
pub fn read_text(rt: &impl Host, folder: &str, name: &str) -> Result<String> {
    let path = format!(in rt.alloc(); "{folder}/{name}")?;
    Ok(fs::read_to_string(rt, path.as_str())?)
}

/// Returns the text of the file `FOLDER/NAME.ENDING` of `data`.
pub fn read_part(rt: &impl Host, folder: &str, name: &str, ending: &str) -> Result<String> {
    let path = format!(in rt.alloc(); "{folder}/{name}.{ending}")?;
    Ok(fs::read_to_string(rt, path.as_str())?)
}

/// The table in which a file's lines stand.
#[derive(Copy, Clone)]
pub struct Table<'a> {
    pub name: &'a str,
}

impl<'a> Table<'a> {
    /// Returns the name and the fields of a line `NAME|FIELDS`. A line `# TABLE` begins a table.
    pub fn vector(&mut self, line: &'a str) -> Option<(&'a str, &'a str)> {
        if let Some(name) = line.strip_prefix("# ") {
            self.name = name;
            return None;
        }
        line.split_once('|')
    }
}

/// Counts what differs, and names it.
pub fn count(rt: &impl Host, table: &str, name: &str, is_right: bool) -> io::Result<u64> {
    if is_right {
        return Ok(0);
    }
    println!(rt; "{table}/{name} differs")?;
    Ok(1)
}
