//! The call that makes a document.

ghost use Rattle.std.specs.Prelude.{◌≡◌, Err, IfOk, OnOk, OnErr, IsErrOf, map, ◌↔◌, ◌⊎◌};
ghost use Rattle.libyaml_types.specs.Texts.{PairsAreUtf8, directive_of};
ghost use Rattle.libyaml_documents.specs.Documents.{empty_document};

use super::yaml_document_t;
use libyaml_types::directive::directives_of_pairs;
use libyaml_types::{ZERO_MARK, yaml_refusal_t, yaml_version_directive_t};
use std::alloc::Global;

/// Returns a document without nodes, with this version and these tag directives, each a handle and its
/// prefix, and with zero marks. It keeps `alloc` for its nodes.
///
/// A handle may be any text, and may be there twice.
///
/// # Errors
///
/// `NotUtf8` if a handle or prefix isn't UTF-8, before anything is allocated; `Memory` if an allocation
/// fails. Nothing else is checked.
///
/// libyaml: `yaml_document_initialize`.
pub fn yaml_document_initialize(
    alloc: Global,
    version_directive: Option<yaml_version_directive_t>,
    tag_directives: &[(&[u8], &[u8])],
    start_implicit: bool,
    end_implicit: bool,
) -> Result<yaml_document_t, yaml_refusal_t>
    ensures ok { IfOk result (λ document. document
        ≡ empty_document version_directive (map directive_of tag_directives.now) start_implicit
        end_implicit) }
    ensures utf8 { OnOk result (PairsAreUtf8 tag_directives.now) }
    ensures memory { IsErrOf result yaml_refusal_t.Memory → PairsAreUtf8 tag_directives.now }
    ensures not_utf8 { IsErrOf result yaml_refusal_t.NotUtf8 ↔ ¬ PairsAreUtf8 tag_directives.now }
    ensures errors { OnErr result ((result ≡ Err yaml_refusal_t.NotUtf8)
        ⊎ (result ≡ Err yaml_refusal_t.Memory)) }
{
    Ok(yaml_document_t {
        nodes: Vec::new(alloc),
        version_directive,
        tag_directives: directives_of_pairs(alloc, tag_directives)?,
        start_implicit,
        end_implicit,
        start_mark: ZERO_MARK,
        end_mark: ZERO_MARK,
    })
}
