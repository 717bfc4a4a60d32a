//! A whole run: all events of a source, and all documents.

ghost use Rattle.std.specs.Prelude.{◌≡◌, List, Some, true, IfOk};
ghost use Rattle.unsafe_libyaml.specs.Events.{events};
ghost use Rattle.unsafe_libyaml.specs.Fault.{Fault};
ghost use Rattle.unsafe_libyaml.specs.Loads.{IsLoads, Load};
ghost use Rattle.unsafe_libyaml.specs.Order.{in_order};
ghost use Rattle.unsafe_libyaml.specs.Runs.{Ends};
ghost use Rattle.unsafe_libyaml.specs.Source.{coming};
ghost use Rattle.unsafe_libyaml.specs.Tokens.{Token};
ghost use Rattle.unsafe_libyaml.specs.Trees.{Stream, tokens};
ghost use Rattle.unsafe_libyaml.specs.WholeLoads.{LoadsTo};
ghost use Rattle.unsafe_libyaml.specs.WholeRun.{RunsTo};

use std::alloc::{AllocError, Global};
use unsafe_libyaml::{
    yaml_documents_t, yaml_parser_load_all, yaml_parser_parse_all, yaml_run_t, yaml_token_source_t,
};

/// Returns all events: of the tokens of a tree in order, those of the tree.
pub fn all_events<S: yaml_token_source_t + Drop>(
    alloc: Global,
    source: S,
) -> Result<yaml_run_t, AllocError>
    ensures of_tree { (t : Stream) (f : Fault) → in_order t ≡ true
        → S.known source ≡ Some (coming (tokens t) f)
        → IfOk result (λ run. RunsTo S.yaml_token_source_t source run (events t) Ends) }
{
    yaml_parser_parse_all(alloc, source)
}

/// Returns all documents: of any list, its loads.
pub fn all_documents<S: yaml_token_source_t + Drop>(
    alloc: Global,
    source: S,
) -> Result<yaml_documents_t, AllocError>
    ensures of_list { (l : List Token) (f : Fault) (loads : List Load) → IsLoads l f loads
        → S.known source ≡ Some (coming l f)
        → IfOk result (λ all. LoadsTo S.yaml_token_source_t source all loads) }
{
    yaml_parser_load_all(alloc, source)
}
