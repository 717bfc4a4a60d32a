//! All documents of a source at once.
ghost use Rattle.std.specs.Prelude.{◌≡◌, ◌≢◌, ◌≤◌, ◌*◌, ◌++◌, ◌∷◌, List, [], All, Some, true, IfOk, IfErr};
ghost use Rattle.std.specs.Prelude.{length};
ghost use Rattle.libyaml_grammar.specs.partial.PartialEvents.{partial_events};
ghost use Rattle.libyaml_grammar.specs.partial.PartialFaults.{fault};
ghost use Rattle.libyaml_grammar.specs.partial.PartialTrees.{PartialTree};
ghost use Rattle.libyaml_grammar.specs.grammar.Events.{events};
ghost use Rattle.libyaml_types.specs.Fault.{Fault};
ghost use Rattle.libyaml_grammar.specs.partial.Fits.{Fits};
ghost use Rattle.libyaml_grammar.specs.grammar.Nesting.{IsNested};
ghost use Rattle.libyaml_grammar.specs.grammar.Order.{in_order};
ghost use Rattle.libyaml_grammar.specs.runs.Runs.{Ends, Fails, is_after_properties};
ghost use Rattle.libyaml_types.specs.Source.{coming};
ghost use Rattle.libyaml_grammar.specs.grammar.Tokens.{Token};
ghost use Rattle.libyaml_grammar.specs.grammar.Trees.{Stream, tokens};
ghost use Rattle.libyaml_graphs.specs.loads.GraphLaws.{NestedLoads};
ghost use Rattle.libyaml_graphs.specs.loads.Linear.{documents_size};
ghost use Rattle.libyaml_graphs.specs.loads.Loads.{IsLoads, Load, last_load, loads_of};
ghost use Rattle.unsafe_libyaml.specs.WholeLoads.{GathersLoads, LoadsTo};

use crate::parse_all::unless_memory;
use libyaml_documents::yaml_document_t;
use libyaml_events::{yaml_parser_initialize, yaml_parser_t_prefix, yaml_token_source_t};
use libyaml_loader::yaml_parser_load;
use libyaml_types::yaml_error_type_t;
use std::alloc::{AllocError, Global};

/// All documents of a source, and how they ended.
#[derive(Drop)]
pub struct yaml_documents_t {
    /// The documents in their order. Each has a root.
    pub documents: Vec<yaml_document_t>,
    /// The error after them, or `None` if the stream ends after the last.
    pub fault: Option<yaml_parser_t_prefix>,
}

/// Returns all documents of a source, and how they ended: the calls of `yaml_parser_load` until the stream's
/// end or an error, as one value.
///
/// # Errors
///
/// `AllocError` if an allocation fails, if a list of a document would have more than 2,147,483,647 entries,
/// or if the source's error is out of memory.
///
/// libyaml: a loop over `yaml_parser_load`.
pub fn yaml_parser_load_all<S: yaml_token_source_t + Drop>(
    alloc: Global,
    source: S,
) -> Result<yaml_documents_t, AllocError>
    // the tokens of a tree in order give its documents' graphs, up to the first composer error
    ensures of_tree { (t : Stream) (f : Fault) → in_order t ≡ true
        → S.known source ≡ Some (coming (tokens t) f)
        → IfOk result (λ all. (n : IsNested (events t))
        × LoadsTo S.yaml_token_source_t source all (loads_of n.texts (last_load Ends ∷ []))) }
    // a partial tree that fits gives those of its whole documents, and then the open one's composer error
    // or its own
    ensures of_partial_tree { (before : List Token) (token : Token) (following : List Token) (c : PartialTree)
        (f : Fault) → Fits before token c → is_after_properties c following ≡ true
        → S.known source ≡ Some (coming (before ++ token ∷ following) f)
        → IfOk result (λ all. (loads : List Load)
        × NestedLoads (partial_events c token) (Fails (fault c token.content token.start_mark)) loads
        × LoadsTo S.yaml_token_source_t source all loads) }
    // any list of tokens gives its loads
    ensures of_list { (l : List Token) (f : Fault) (loads : List Load) → IsLoads l f loads
        → S.known source ≡ Some (coming l f)
        → IfOk result (λ all. LoadsTo S.yaml_token_source_t source all loads) }
    // over every source, also one that does not know its tokens
    ensures gathers { IfOk result (λ all. GathersLoads S.gives source all) }
    // nodes and the entries of their lists are together at most twice the events that were taken, and eight
    // for each token asked for
    ensures linear { IfOk result (λ all. (g : GathersLoads S.gives source all)
        × (documents_size all.documents.items ≤ 2 * length g.taken)
        × (documents_size all.documents.items ≤ 8 * length g.asked)) }
    ensures roots { IfOk result (λ all. All (λ d. d.nodes ≢ []) all.documents.items) }
{
    let mut parser = yaml_parser_initialize(alloc, source);
    let mut documents = Vec::new(alloc);
    loop {
        match yaml_parser_load(&mut parser) {
            Ok(document) => {
                if document.nodes().is_empty() {
                    return Ok(yaml_documents_t {
                        documents,
                        fault: None,
                    });
                }
                documents.push(document)?;
            }
            Err(_) => return failed_load(documents, *parser.prefix()),
        }
    }
}

/// Returns these documents and the error after them; out of memory becomes `AllocError`.
fn failed_load(
    documents: Vec<yaml_document_t>,
    fault: yaml_parser_t_prefix,
) -> Result<yaml_documents_t, AllocError>
    ensures ok { IfOk result (λ all. (all.documents ≡ documents) × (all.fault ≡ Some fault)
        × (fault.error ≢ yaml_error_type_t.YAML_MEMORY_ERROR)) }
    ensures memory { IfErr result (λ _. fault.error ≡ yaml_error_type_t.YAML_MEMORY_ERROR) }
{
    let fault = unless_memory(fault)?;
    Ok(yaml_documents_t {
        documents,
        fault: Some(fault),
    })
}
