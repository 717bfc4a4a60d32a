//! Paths: words that lead from the root to a node.
ghost use Rattle.std.specs.Prelude.{◌≡◌, ◌≢◌, IfSome, get_or, length, map};
ghost use Rattle.std.specs.Option.{option_copied};
ghost use Rattle.libyaml_documents.specs.Nodes.{IsIdUpTo};
ghost use Rattle.yaml_path.specs.Paths.{index_of, child_at, id_at, text_at};

use crate::step::{as_str, item_at, node_of, value_at};
use libyaml_documents::yaml_document_t;

/// The id of the root, if a document has one.
const ROOT: i32 = 1;

/// Returns the id of the node at the end of a path from the root, or `None` if the path leads nowhere.
///
/// A word leads in a mapping to the value of the first key that is a scalar of exactly this text, and in a
/// sequence to the item of that number, which is written in decimal digits, from 0. The empty path leads to
/// the root.
pub fn id_at(document: &yaml_document_t, path: &[&str]) -> Option<i32>
    ensures end { result ≡ id_at document.now.nodes (map (λ word. word.now) path.now) }
    ensures in_document { IfSome result (IsIdUpTo (length document.now.nodes)) }
{
    document.root()?;
    let mut id = ROOT;
    for word in path {
        id = child_at(document, id, word)?;
    }
    Some(id)
}

/// Returns the text of the scalar at the end of a path from the root, or `None` if the path leads nowhere or
/// to a collection.
pub fn text_at<'a>(document: &'a yaml_document_t, path: &[&str]) -> Option<&'a str>
    ensures text { option_copied result ≡ text_at document.now.nodes (map (λ word. word.now) path.now) }
{
    let id = id_at(document, path)?;
    as_str(node_of(document, id)?)
}

/// Returns the id of the child that a word of a path leads to.
fn child_at(document: &yaml_document_t, id: i32, word: &str) -> Option<i32>
    ensures child { result ≡ child_at document.now.nodes id word.now }
    ensures in_document { IfSome result (IsIdUpTo (length document.now.nodes)) }
{
    match value_at(document, id, word) {
        Some(value) => Some(value),
        None => item_at(document, id, index_of(word)?),
    }
}

/// Returns the number that a word of decimal digits alone writes.
#[tactic(auto, using(crate::proofs::Numerals::without_plus))]
fn index_of(word: &str) -> Option<usize>
    ensures { result ≡ index_of word.now }
{
    if word.starts_with('+') {
        return None;
    }
    number_of(word)
}

/// Returns the number that a word without a plus sign writes.
#[tactic(auto, using(crate::proofs::Numerals::word_read))]
fn number_of(word: &str) -> Option<usize>
    requires { get_or word.now 0 0 ≢ 43 }
    ensures { result ≡ index_of word.now }
{
    word.parse().ok()
}
