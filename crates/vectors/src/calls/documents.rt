//! Documents by calls.

ghost use Rattle.std.specs.Prelude.{◌≡◌, [], IfOk};

use crate::calls::{joined, shown};
use anyhow::{Result, bail};
use std::alloc::Global;
use token_lines::write_document;
use unsafe_libyaml::{
    YAML_ANY_SEQUENCE_STYLE, YAML_BLOCK_MAPPING_STYLE, YAML_DOUBLE_QUOTED_SCALAR_STYLE,
    YAML_PLAIN_SCALAR_STYLE, yaml_document_add_mapping, yaml_document_add_scalar,
    yaml_document_add_sequence, yaml_document_append_mapping_pair,
    yaml_document_append_sequence_item, yaml_document_get_node, yaml_document_get_root_node,
    yaml_document_initialize, yaml_document_t, yaml_refusal_t,
};

type Made = Result<yaml_document_t, yaml_refusal_t>;

/// A document without nodes or directives.
fn empty(alloc: Global) -> Made
    ensures { IfOk result (λ document. document.nodes ≡ []) }
{
    yaml_document_initialize(alloc, None, &[], true, true)
}

/// A plain scalar, `a`, and nothing else.
fn word(alloc: Global) -> Made {
    let mut document = empty(alloc)?;
    let added = yaml_document_add_scalar(&mut document, None, b"a", YAML_PLAIN_SCALAR_STYLE);
    added.and(Ok(document))
}

/// Whether the root is there, which of the ids -1 to 2 name a node, and whether 1 names the root.
fn known(document: &yaml_document_t) -> [bool; 6] {
    let root = yaml_document_get_root_node(document);
    [
        root.is_some(),
        yaml_document_get_node(document, -1).is_some(),
        yaml_document_get_node(document, 0).is_some(),
        yaml_document_get_node(document, 1).is_some(),
        yaml_document_get_node(document, 2).is_some(),
        yaml_document_get_node(document, 1) == root,
    ]
}

fn known_of_word(alloc: Global) -> Result<String> {
    let document = word(alloc)?;
    shown(alloc, &known(&document))
}

/// Adds a sequence, whose items are a scalar and itself.
fn add_list_of_two(document: &mut yaml_document_t) -> Result<(), yaml_refusal_t>
    requires { document.old.nodes ≡ [] }
{
    let list = yaml_document_add_sequence(document, None, YAML_ANY_SEQUENCE_STYLE)?;
    let word = yaml_document_add_scalar(document, None, b"a", YAML_PLAIN_SCALAR_STYLE)?;
    yaml_document_append_sequence_item(document, list, word)?;
    yaml_document_append_sequence_item(document, list, list)?;
    Ok(())
}

fn list_of_two(alloc: Global) -> Made {
    let mut document = empty(alloc)?;
    let added = add_list_of_two(&mut document);
    added.and(Ok(document))
}

fn tagged_word(alloc: Global) -> Made {
    let mut document = empty(alloc)?;
    let style = YAML_DOUBLE_QUOTED_SCALAR_STYLE;
    let added = yaml_document_add_scalar(&mut document, Some(b"!"), b"", style);
    added.and(Ok(document))
}

/// Adds a mapping, whose only pair has a scalar and the mapping itself.
fn add_map_of_one(document: &mut yaml_document_t) -> Result<(), yaml_refusal_t>
    requires { document.old.nodes ≡ [] }
{
    let map = yaml_document_add_mapping(document, None, YAML_BLOCK_MAPPING_STYLE)?;
    let word = yaml_document_add_scalar(document, None, b"a", YAML_PLAIN_SCALAR_STYLE)?;
    yaml_document_append_mapping_pair(document, map, word, map)?;
    Ok(())
}

fn map_of_one(alloc: Global) -> Made {
    let mut document = empty(alloc)?;
    let added = add_map_of_one(&mut document);
    added.and(Ok(document))
}

fn lines_of(alloc: Global, made: Made) -> Result<String> {
    let document = made?;
    let mut lines = Vec::new(alloc);
    write_document(alloc, &document, &mut lines)?;
    joined(alloc, lines.as_slice())
}

/// Adds a mapping with a tag that is no text, and shows the error and how many nodes there are then.
fn refused_tag(alloc: Global) -> Result<String> {
    let mut document = empty(alloc)?;
    let style = YAML_BLOCK_MAPPING_STYLE;
    let added = yaml_document_add_mapping(&mut document, Some(&[0xff]), style);
    shown(alloc, &(added, document.nodes().len()))
}

/// Returns the text of what the calls of this name give.
pub fn given(alloc: Global, name: &str) -> Result<String> {
    match name {
        "ids count from one" => known_of_word(alloc),
        "items are appended in order" => lines_of(alloc, list_of_two(alloc)),
        "a given tag stays" => lines_of(alloc, tagged_word(alloc)),
        "a tag that is no text adds no node" => refused_tag(alloc),
        "a pair is appended" => lines_of(alloc, map_of_one(alloc)),
        _ => bail!("no such document"),
    }
}
