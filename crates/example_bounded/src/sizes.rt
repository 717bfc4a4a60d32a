//! How large each document of token lines is, once its aliases are written out.

use anyhow::Result;
use std::fs;
use std::rt::Files;
use token_lines::yaml_line_source_t;
use unsafe_libyaml::{yaml_document_t, yaml_parser_documents, yaml_parser_initialize};
use yaml_expansion::bounded_size;

/// How many nodes the tree of a document may have.
const MAX_SIZE: u64 = 1_000_000;

/// Prints a line for each document of a file of token lines: how many nodes it has, and how many the tree that it
/// stands for, or why it has none up to `MAX_SIZE`. Returns whether each has one.
pub fn print_sizes(rt: &(impl Files + Print + AllocGlobal), file: &str) -> Result<bool> {
    let alloc = rt.alloc();
    let text = fs::read_to_string(rt, file)?;
    let source = yaml_line_source_t::new(alloc, text.as_bytes(), u64::MAX);
    let mut parser = yaml_parser_initialize(alloc, source);
    let mut all_have_sizes = true;
    for document in yaml_parser_documents(&mut parser) {
        all_have_sizes &= print_size(rt, &document?)?;
    }
    Ok(all_have_sizes)
}

/// Prints the line of a document, and returns whether it has a size up to the bound.
fn print_size(rt: &(impl Print + AllocGlobal), document: &yaml_document_t) -> Result<bool> {
    let count = document.nodes().len();
    match bounded_size(rt.alloc(), document, MAX_SIZE) {
        Ok(size) => {
            println!(rt; "{count} nodes, {size} with aliases written out")?;
            Ok(true)
        }
        Err(error) => {
            println!(rt; "{count} nodes: {error}")?;
            Ok(false)
        }
    }
}
