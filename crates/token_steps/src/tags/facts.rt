//! The facts of tokens that a step takes.
ghost use Rattle.std.specs.Prelude.{◌≡◌, ◌++◌, Some, is_some};
ghost use Rattle.std.specs.FinMap.{get};
ghost use Rattle.libyaml_grammar.specs.grammar.Order.{is_accepted};
ghost use Rattle.token_steps.specs.Handles.{handles_at};
ghost use Rattle.token_steps.specs.Texts.{bit, tag_fact as fact_of_tag};

use crate::tags::handles::{declared_prefix, handle_t, is_same};

/// Returns the fact of a TAG-DIRECTIVE: 1 if the document declares the handle already, else 0.
#[tactic(auto, using(crate::proofs::Found::get_handle))]
pub fn directive_fact(handles: &[handle_t], texts: &[u8], handle: &[u8]) -> u8
    ensures { result ≡ bit (is_some (get (handles_at texts.now handles.now) handle.now)) }
{
    match declared_prefix(handles, texts, handle) {
        Some(_) => 1,
        None => 0,
    }
}

/// Returns the fact of a full tag.
fn text_fact(text: &[u8]) -> u8
    ensures { result ≡ fact_of_tag (Some text.now) }
{
    if text.is_empty() {
        1
    } else if is_same(text, "!".as_bytes()) {
        2
    } else {
        3
    }
}

/// Returns the fact of the tag that these two texts make.
#[tactic(auto, using(crate::proofs::Whole::two_texts))]
pub(crate) fn whole_fact(prefix: &[u8], suffix: &[u8]) -> u8
    ensures { result ≡ fact_of_tag (Some (prefix.now ++ suffix.now)) }
{
    if prefix.is_empty() {
        text_fact(suffix)
    } else if suffix.is_empty() {
        text_fact(prefix)
    } else {
        3
    }
}

/// Returns the fact of a VERSION-DIRECTIVE: 1 if its version is accepted, 1.1 or 1.2, else 0.
pub fn version_fact(major: i32, minor: i32) -> u8
    ensures { result ≡ bit (is_accepted major minor) }
{
    if major == 1 && (minor == 1 || minor == 2) {
        1
    } else {
        0
    }
}
