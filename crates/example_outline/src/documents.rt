//! The pairs of a root: of a document made by calls, and of documents that are loaded.

use anyhow::Result;
use std::alloc::Global;
use std::io::BufReader;
use token_lines::yaml_line_source_t;
use unsafe_libyaml::{
    YAML_BLOCK_MAPPING_STYLE, YAML_FLOW_SEQUENCE_STYLE, YAML_PLAIN_SCALAR_STYLE,
    unnamed_yaml_node_t_data, yaml_document_add_mapping, yaml_document_add_scalar,
    yaml_document_add_sequence, yaml_document_append_mapping_pair, yaml_document_initialize,
    yaml_document_t, yaml_node_t, yaml_parser_documents, yaml_parser_initialize,
};

/// Returns the document of `{ name: box, size: [] }`.
fn document_of_a_box(alloc: Global) -> Result<yaml_document_t> {
    let style = YAML_PLAIN_SCALAR_STYLE;
    let mut document = yaml_document_initialize(alloc, None, &[], true, true)?;
    let root = yaml_document_add_mapping(&mut document, None, YAML_BLOCK_MAPPING_STYLE)?;
    let name = yaml_document_add_scalar(&mut document, None, b"name", style)?;
    let text = yaml_document_add_scalar(&mut document, None, b"box", style)?;
    yaml_document_append_mapping_pair(&mut document, root, name, text)?;
    let size = yaml_document_add_scalar(&mut document, None, b"size", style)?;
    let list = yaml_document_add_sequence(&mut document, None, YAML_FLOW_SEQUENCE_STYLE)?;
    yaml_document_append_mapping_pair(&mut document, root, size, list)?;
    Ok(document)
}

/// Returns the text of a scalar, or the name of another node's type.
fn told(node: &yaml_node_t) -> &str {
    match &node.content {
        unnamed_yaml_node_t_data::Scalar(scalar) => scalar.value.as_str(),
        _ => node.type_().name(),
    }
}

/// Prints each pair of the root.
fn print_pairs(rt: &HostRuntime, document: &yaml_document_t) -> Result<()> {
    let Some(root) = document.root() else {
        return Ok(());
    };
    for (key, value) in document.pairs(root) {
        let key = told(key);
        let value = told(value);
        println!(rt; "{key}: {value}")?;
    }
    Ok(())
}

/// Prints the pairs of the root of each document of the token lines on standard input.
fn print_documents(rt: &HostRuntime) -> Result<()> {
    let alloc = rt.alloc();
    let reader = BufReader::new(alloc, rt.stdin())?;
    let source = yaml_line_source_t::new(alloc, reader, u64::MAX);
    let mut parser = yaml_parser_initialize(alloc, source);
    for document in yaml_parser_documents(&mut parser) {
        let document = document?;
        print_pairs(rt, &document)?;
    }
    Ok(())
}

/// Prints the pairs of the document of a box, and then those of each document of the token lines on standard
/// input.
///
/// # Errors
///
/// The error of the tokens, or that memory or the output failed.
pub fn print_all_pairs(rt: &HostRuntime) -> Result<()> {
    let document = document_of_a_box(rt.alloc())?;
    print_pairs(rt, &document)?;
    print_documents(rt)
}
